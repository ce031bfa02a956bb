//! A session as an opaque pointer for a page.
ghost use Rattle.std.specs.Prelude.{◌≡◌, Option};
ghost use Rattle.std.specs.Coded.{coded_option};
ghost use Rattle.std.specs.declared.option.Option.TheVariants.{None, Some};
ghost use Rattle.ncp_web.specs.declared.handle.held.BoxedSession.{BoxedSession};
ghost use Rattle.ncp_web.specs.contracts.handle.held.BoxedSession.{the_row};
ghost use Rattle.ncp_parts.specs.Owning.{owned_if_any, value_of_parts, value_of_box};

mod held;

pub(crate) use held::BoxedSession;
use ncp_parts::Parts;
use std::alloc::Global;
use std::marker::Model;
use std::mem::replace;
use std::ptr::null_mut;

/// A handle of a session, null if there is none. A page only stores it and passes it back.
#[repr(C)]
pub struct SessionHandle {
    at: *mut u8,
    alloc: Global,
    pub ghost session: { Option BoxedSession } by { coded_option the_row.coded },
}

impl Model for SessionHandle {
    ghost also_owns = { λ h. owned_if_any the_row h.alloc h.at h.session };
}

impl SessionHandle {
    /// No session.
    pub(crate) fn none(alloc: Global) -> SessionHandle
        ensures { result.session ≡ None }
    {
        SessionHandle {
            at: null_mut(),
            alloc,
        }
    }

    fn of_parts(parts: Parts<BoxedSession, Global>) -> SessionHandle
        ensures { result.session ≡ Some parts.value }
    {
        let Parts { ptr, alloc } = parts;
        SessionHandle {
            at: ptr as *mut u8,
            alloc,
        }
    }

    fn into_parts(self) -> Option<Parts<BoxedSession, Global>>
        ensures { value_of_parts result ≡ self.session }
    {
        let SessionHandle { at, alloc } = self;
        if at.is_null() {
            None
        } else {
            Some(Parts {
                ptr: at as *mut BoxedSession,
                alloc,
            })
        }
    }
}

impl Drop for SessionHandle {
    fn drop(self) {
        if let Some(parts) = self.into_parts() {
            drop(parts.into_box());
        }
    }
}

/// Removes the session from the handle and returns it.
pub(crate) fn take(alloc: Global, handle: &mut SessionHandle) -> Option<Box<BoxedSession>>
    ensures held { value_of_box result ≡ handle.old.session }
    ensures left { handle.new.session ≡ None }
{
    match replace(handle, SessionHandle::none(alloc)).into_parts() {
        Some(parts) => Some(parts.into_box()),
        None => None,
    }
}

pub(crate) fn put(handle: &mut SessionHandle, held: Box<BoxedSession>)
    ensures { handle.new.session ≡ Some held.value }
{
    *handle = SessionHandle::of_parts(Parts::of(held));
}
