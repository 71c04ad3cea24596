//! The halves together.

ghost use Rattle.vhost_backend_req_handler_core.specs.Concluding.{ConcludesRow};

use std::marker::PhantomData;

/// Laws of the halves, over descriptors and channels of these types.
pub struct Laws<H, B, G> {
    of: PhantomData<(H, B, G)>,
}

impl<H: Drop, B: Drop, G: Drop> Laws<H, B, G> {
    /// Whatever is answered to a call, its second half is that of the definitions.
    pub fn concludes_row()
        ensures { ConcludesRow H B G }
    {}
}

/// The law with numbers for descriptors and channels, so that its bounds are seen to be met.
pub fn laws_of_halves() {
    Laws::<u32, u32, u32>::concludes_row();
}
