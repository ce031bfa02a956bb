//! A host as an opaque pointer for C.
ghost use Rattle.std.specs.Prelude.{◌≡◌, Option};
ghost use Rattle.std.specs.Coded.{coded_option};
ghost use Rattle.std.specs.declared.option.Option.TheVariants.{None, Some};
ghost use Rattle.ncp_embed.specs.declared.handle.held.BoxedHost.{BoxedHost};
ghost use Rattle.ncp_embed.specs.contracts.handle.held.BoxedHost.{the_row};
ghost use Rattle.ncp_parts.specs.Owning.{owned_if_any, value_of_parts, value_of_box};

mod held;

pub(crate) use held::BoxedHost;
use ncp_parts::Parts;
use std::alloc::Global;
use std::marker::Model;
use std::mem::replace;
use std::ptr::null_mut;

/// A handle of a host, null if there is none. C only stores it and passes it back.
#[repr(C)]
pub struct HostHandle {
    at: *mut u8,
    alloc: Global,
    pub ghost host: { Option BoxedHost } by { coded_option the_row.coded },
}

impl Model for HostHandle {
    ghost also_owns = { λ h. owned_if_any the_row h.alloc h.at h.host };
}

impl HostHandle {
    /// No host.
    pub(crate) fn none(alloc: Global) -> HostHandle
        ensures { result.host ≡ None }
    {
        HostHandle {
            at: null_mut(),
            alloc,
        }
    }

    fn of_parts(parts: Parts<BoxedHost, Global>) -> HostHandle
        ensures { result.host ≡ Some parts.value }
    {
        let Parts { ptr, alloc } = parts;
        HostHandle {
            at: ptr as *mut u8,
            alloc,
        }
    }

    fn into_parts(self) -> Option<Parts<BoxedHost, Global>>
        ensures { value_of_parts result ≡ self.host }
    {
        let HostHandle { at, alloc } = self;
        if at.is_null() {
            None
        } else {
            Some(Parts {
                ptr: at as *mut BoxedHost,
                alloc,
            })
        }
    }
}

impl Drop for HostHandle {
    fn drop(self) {
        if let Some(parts) = self.into_parts() {
            drop(parts.into_box());
        }
    }
}

/// Removes the host from the handle and returns it.
pub(crate) fn take(alloc: Global, handle: &mut HostHandle) -> Option<Box<BoxedHost>>
    ensures held { value_of_box result ≡ handle.old.host }
    ensures left { handle.new.host ≡ None }
{
    match replace(handle, HostHandle::none(alloc)).into_parts() {
        Some(parts) => Some(parts.into_box()),
        None => None,
    }
}

pub(crate) fn put(handle: &mut HostHandle, held: Box<BoxedHost>)
    ensures { handle.new.host ≡ Some held.value }
{
    *handle = HostHandle::of_parts(Parts::of(held));
}
