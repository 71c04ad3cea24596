//! Calls without arguments.

ghost use Rattle.std.specs.Prelude.{◌≡◌};
ghost use Rattle.vhost_lines.specs.Read.{called, texts};
ghost use Rattle.vhost_lines.specs.Shapes.{bare};
ghost use Rattle.vhost_frontend_core.specs.Values.{call_of};

use vhost_frontend_core::FrontendCall;

/// A call that has no argument. None where there is one.
pub(crate) fn bare(call: FrontendCall, args: &[&str]) -> Option<FrontendCall>
    ensures { called result ≡ bare (call_of call) (texts args.now) }
{
    if args.is_empty() { Some(call) } else { None }
}
