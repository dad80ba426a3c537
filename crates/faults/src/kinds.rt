// A disk's fault with the kind of request that it came from, so that `?` knows which refusal follows.
ghost use Rattle.std.specs.Prelude.{◌≡◌};
ghost use Rattle.faults.specs.Kinds.{failed};
ghost use Rattle.faults.specs.declared.disk.DiskFault.{DiskFault};
ghost use Rattle.faults.specs.declared.store.Fault.{Fault};
ghost use Rattle.faults.specs.declared.store.Fault.TheVariants.{BlobOpenFailed, BlobResizeFailed, BlobSyncFailed, Io, ReadFailed};

use crate::disk::DiskFault;
use crate::store::Fault;
use std::fmt;
use std::marker::PhantomData;

// K is the kind. It is in the type alone.
#[derive(Clone, Copy, PartialEq, Eq)]
pub struct Failed<K>(pub DiskFault, PhantomData<K>);

#[derive(Clone, Copy, PartialEq, Eq, Debug)]
pub struct Open;

// Also a header, and a flush of a directory or of the root.
#[derive(Clone, Copy, PartialEq, Eq, Debug)]
pub struct Write;

// A barrier's end.
#[derive(Clone, Copy, PartialEq, Eq, Debug)]
pub struct Flush;

#[derive(Clone, Copy, PartialEq, Eq, Debug)]
pub struct Resize;

// What only asks: length and read.
#[derive(Clone, Copy, PartialEq, Eq, Debug)]
pub struct Length;

// Unbinding a name or a partition. The refusal depends on which it was, and on the code, so none follows from the kind.
#[derive(Clone, Copy, PartialEq, Eq, Debug)]
pub struct Unbind;

pub type OpenFault = Failed<Open>;

pub type WriteFault = Failed<Write>;

pub type FlushFault = Failed<Flush>;

pub type ResizeFault = Failed<Resize>;

pub type LengthFault = Failed<Length>;

pub type UnbindFault = Failed<Unbind>;

// A kind by the name of its faults.
pub trait Kind {
    const NAME: &'static str;
}

impl Kind for Open {
    const NAME: &'static str = "OpenFault";
}

impl Kind for Write {
    const NAME: &'static str = "WriteFault";
}

impl Kind for Flush {
    const NAME: &'static str = "FlushFault";
}

impl Kind for Resize {
    const NAME: &'static str = "ResizeFault";
}

impl Kind for Length {
    const NAME: &'static str = "LengthFault";
}

impl Kind for Unbind {
    const NAME: &'static str = "UnbindFault";
}

// By hand, since a derive would print the kind of none.
impl<K: Kind> fmt::Debug for Failed<K> {
    fn fmt<W: fmt::Write>(&self, f: &mut fmt::Formatter<W>) -> fmt::Result {
        f.debug_tuple(K::NAME).field(&self.0).finish()
    }
}

// A kind that one refusal follows from.
pub trait Refuses {
    ghost refusal: { DiskFault → Fault };

    fn refusal(fault: DiskFault) -> Fault
        ensures { result ≡ refusal fault };
}

impl Refuses for Open {
    ghost refusal = { BlobOpenFailed };

    fn refusal(fault: DiskFault) -> Fault {
        Fault::BlobOpenFailed(fault)
    }
}

impl Refuses for Write {
    ghost refusal = { Io };

    fn refusal(fault: DiskFault) -> Fault {
        Fault::Io(fault)
    }
}

impl Refuses for Flush {
    ghost refusal = { BlobSyncFailed };

    fn refusal(fault: DiskFault) -> Fault {
        Fault::BlobSyncFailed(fault)
    }
}

impl Refuses for Resize {
    ghost refusal = { BlobResizeFailed };

    fn refusal(fault: DiskFault) -> Fault {
        Fault::BlobResizeFailed(fault)
    }
}

// A length that cannot be read is refused without its code.
impl Refuses for Length {
    ghost refusal = { λ _. ReadFailed };

    fn refusal(_fault: DiskFault) -> Fault {
        Fault::ReadFailed
    }
}

impl<K: Refuses> From<Failed<K>> for Fault {
    ghost from_gives = { λ d f. f ≡ K.refusal d.0 };

    fn from(fault: Failed<K>) -> Fault {
        K::refusal(fault.0)
    }
}

impl<K> From<DiskFault> for Failed<K> {
    ghost from_gives = { λ d f. f ≡ failed d };

    fn from(fault: DiskFault) -> Failed<K> {
        Failed(fault, PhantomData)
    }
}
