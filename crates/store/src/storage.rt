// What a store holds.
ghost use Rattle.std.specs.Prelude.{◌≡◌, IfOk, IfErr};
ghost use Rattle.rules.specs.State.{empty};
ghost use Rattle.store.specs.Of.{disk_of, state};

use ledger::Ledger;
use std::alloc::{AllocFailed, Global};

#[derive(Drop)]
pub struct Store<D> {
    pub(crate) disk: D,
    pub(crate) ledger: Ledger,
}

impl<D> Store<D> {
    // The only call that allocates. Where memory is refused the disk is given back.
    pub fn new(disk: D, heap: Global) -> Result<Store<D>, AllocFailed<D>>
        ensures made { IfOk result (λ s. (state s ≡ empty) × (disk_of s ≡ disk)) }
        ensures refused { IfErr result (λ y. y.value ≡ disk) }
    {
        match Ledger::new(heap) {
            Ok(ledger) => Ok(Store { disk, ledger }),
            Err(_) => Err(AllocFailed { value: disk }),
        }
    }
}
