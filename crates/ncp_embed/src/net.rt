//! A subnet as an opaque pointer for C.
ghost use Rattle.std.specs.Prelude.{◌≡◌, Option};
ghost use Rattle.std.specs.Coded.{coded_option};
ghost use Rattle.std.specs.declared.option.Option.TheVariants.{None, Some};
ghost use Rattle.ncp_embed.specs.declared.net.carried.BoxedSubnet.{BoxedSubnet};
ghost use Rattle.ncp_embed.specs.contracts.net.carried.BoxedSubnet.{the_row};
ghost use Rattle.ncp_parts.specs.Owning.{owned_if_any, value_of_parts, value_of_box};

mod carried;

pub(crate) use carried::BoxedSubnet;
use ncp_parts::Parts;
use std::alloc::Global;
use std::marker::Model;
use std::mem::replace;
use std::ptr::null_mut;

/// A handle of a subnet, null if there is none. C only stores it and passes it back.
#[repr(C)]
pub struct SubnetHandle {
    at: *mut u8,
    alloc: Global,
    pub ghost subnet: { Option BoxedSubnet } by { coded_option the_row.coded },
}

impl Model for SubnetHandle {
    ghost also_owns = { λ h. owned_if_any the_row h.alloc h.at h.subnet };
}

impl SubnetHandle {
    /// No subnet.
    pub(crate) fn none(alloc: Global) -> SubnetHandle
        ensures { result.subnet ≡ None }
    {
        SubnetHandle {
            at: null_mut(),
            alloc,
        }
    }

    fn of_parts(parts: Parts<BoxedSubnet, Global>) -> SubnetHandle
        ensures { result.subnet ≡ Some parts.value }
    {
        let Parts { ptr, alloc } = parts;
        SubnetHandle {
            at: ptr as *mut u8,
            alloc,
        }
    }

    fn into_parts(self) -> Option<Parts<BoxedSubnet, Global>>
        ensures { value_of_parts result ≡ self.subnet }
    {
        let SubnetHandle { at, alloc } = self;
        if at.is_null() {
            None
        } else {
            Some(Parts {
                ptr: at as *mut BoxedSubnet,
                alloc,
            })
        }
    }
}

impl Drop for SubnetHandle {
    fn drop(self) {
        if let Some(parts) = self.into_parts() {
            drop(parts.into_box());
        }
    }
}

/// Removes the subnet from the net and returns it.
pub(crate) fn take(alloc: Global, net: &mut SubnetHandle) -> Option<Box<BoxedSubnet>>
    ensures link_state { value_of_box result ≡ net.old.subnet }
    ensures left { net.new.subnet ≡ None }
{
    match replace(net, SubnetHandle::none(alloc)).into_parts() {
        Some(parts) => Some(parts.into_box()),
        None => None,
    }
}

pub(crate) fn put(net: &mut SubnetHandle, carried: Box<BoxedSubnet>)
    ensures { net.new.subnet ≡ Some carried.value }
{
    *net = SubnetHandle::of_parts(Parts::of(carried));
}
