//! Records of the vhost-user-gpu channel as a program in C writes them.

ghost use Rattle.std.specs.Prelude.{◌≡◌};
ghost use Rattle.vhost_c_channel.specs.DisplayRecords.{scanout_in, update_in, dmabuf_in, dmabuf2_in, cursor_pos_in, cursor_update_in};

use vhost_gpu_message::{
    VhostUserGpuCursorPos, VhostUserGpuCursorUpdate, VhostUserGpuDMABUFScanout,
    VhostUserGpuDMABUFScanout2, VhostUserGpuScanout, VhostUserGpuUpdate,
};

/// A screen and its size, in pixels: `covretin_display_scanout`.
#[repr(C)]
#[derive(Drop, Clone, Copy)]
pub struct Scanout {
    pub scanout_id: u32,
    pub width: u32,
    pub height: u32,
}

/// A rectangle of a screen, in pixels: `covretin_display_update`.
#[repr(C)]
#[derive(Drop, Clone, Copy)]
pub struct Update {
    pub scanout_id: u32,
    pub x: u32,
    pub y: u32,
    pub width: u32,
    pub height: u32,
}

/// A rectangle of a screen that shows a buffer, and the buffer's form: `covretin_display_dmabuf_scanout`.
#[repr(C)]
#[derive(Drop, Clone, Copy)]
pub struct DmabufScanout {
    pub scanout_id: u32,
    pub x: u32,
    pub y: u32,
    pub width: u32,
    pub height: u32,
    /// Of the buffer, in pixels.
    pub fd_width: u32,
    /// Of the buffer, in pixels.
    pub fd_height: u32,
    /// Of a row of the buffer, in bytes.
    pub fd_stride: u32,
    pub fd_flags: u32,
    pub fd_drm_fourcc: u32,
}

/// The same with how the buffer's pixels are laid out: `covretin_display_dmabuf_scanout2`.
#[repr(C)]
#[derive(Drop, Clone, Copy)]
pub struct DmabufScanout2 {
    pub dmabuf_scanout: DmabufScanout,
    pub modifier: u64,
}

/// Where the cursor is on a screen, in pixels: `covretin_display_cursor_pos`.
#[repr(C)]
#[derive(Drop, Clone, Copy)]
pub struct CursorPos {
    pub scanout_id: u32,
    pub x: u32,
    pub y: u32,
}

/// The same with its image's hot spot: `covretin_display_cursor_update`.
#[repr(C)]
#[derive(Drop, Clone, Copy)]
pub struct CursorUpdate {
    pub pos: CursorPos,
    pub hot_x: u32,
    pub hot_y: u32,
}

impl Scanout {
    /// That of a call.
    pub fn data(&self) -> VhostUserGpuScanout
        ensures { result ≡ scanout_in self.now }
    {
        VhostUserGpuScanout {
            scanout_id: self.scanout_id,
            width: self.width,
            height: self.height,
        }
    }
}

impl Update {
    /// That of a call.
    pub fn data(&self) -> VhostUserGpuUpdate
        ensures { result ≡ update_in self.now }
    {
        VhostUserGpuUpdate {
            scanout_id: self.scanout_id,
            x: self.x,
            y: self.y,
            width: self.width,
            height: self.height,
        }
    }
}

impl DmabufScanout {
    /// That of a call.
    pub fn data(&self) -> VhostUserGpuDMABUFScanout
        ensures { result ≡ dmabuf_in self.now }
    {
        VhostUserGpuDMABUFScanout {
            scanout_id: self.scanout_id,
            x: self.x,
            y: self.y,
            width: self.width,
            height: self.height,
            fd_width: self.fd_width,
            fd_height: self.fd_height,
            fd_stride: self.fd_stride,
            fd_flags: self.fd_flags,
            fd_drm_fourcc: self.fd_drm_fourcc,
        }
    }
}

impl DmabufScanout2 {
    /// That of a call.
    pub fn data(&self) -> VhostUserGpuDMABUFScanout2
        ensures { result ≡ dmabuf2_in self.now }
    {
        VhostUserGpuDMABUFScanout2 {
            dmabuf_scanout: self.dmabuf_scanout.data(),
            modifier: self.modifier,
        }
    }
}

impl CursorPos {
    /// That of a call.
    pub fn data(&self) -> VhostUserGpuCursorPos
        ensures { result ≡ cursor_pos_in self.now }
    {
        VhostUserGpuCursorPos {
            scanout_id: self.scanout_id,
            x: self.x,
            y: self.y,
        }
    }
}

impl CursorUpdate {
    /// That of a call.
    pub fn data(&self) -> VhostUserGpuCursorUpdate
        ensures { result ≡ cursor_update_in self.now }
    {
        VhostUserGpuCursorUpdate {
            pos: self.pos.data(),
            hot_x: self.hot_x,
            hot_y: self.hot_y,
        }
    }
}
