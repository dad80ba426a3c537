// The calls that only ask: none of them changes what the store holds.
ghost use Rattle.std.specs.Prelude.{◌≡◌, length, IfOk};
ghost use Rattle.rules.specs.Asks.{counts_rule, read_open, read_rule, share_rule};
ghost use Rattle.store.specs.Of.{answered, bytes_read, counted, Does, found, found_opening, HeldAt, of_kind, Spared, state};

use crate::counts::{Counts, share_of};
use crate::found::Found;
use crate::storage::Store;
use crate::tokens::{Blob, Kind, Token};
use disk::{BlobOffset, Disk, FileOffset};
use faults::Fault;
use keys::Key;
use rules::Opening;

impl<D: Disk> Store<D> {
    // The opening of a token.
    pub(crate) fn find<K: Kind>(&self, token: &Token<K>) -> Result<Found, Fault>
        ensures value { answered found_opening result ≡ found (of_kind K.fits) ((state self.now).openings.at token.now.number) }
        ensures number { IfOk result (λ f. f.number ≡ token.now.number) }
    {
        let number = token.number();
        match self.ledger.opening(number) {
            Some(opening) if K::fits(opening.account.stage) => Ok(Found { number, opening }),
            _ => Err(Fault::Unknown),
        }
    }

    pub fn counts<K: Kind>(&self, token: &Token<K>) -> Result<Counts, Fault>
        ensures { Does D.Disk.did self.now (λ s. counts_rule s (of_kind K.fits) token.now.number) (answered counted result) self.now }
    {
        let found = self.find(token)?;
        Ok(found.opening.account.tracker.into())
    }

    // Of a thousand syncs begun, those that found nothing to flush.
    pub fn share<K: Kind>(&self, token: &Token<K>) -> Result<u128, Fault>
        ensures { Does D.Disk.did self.now (λ s. share_rule s (of_kind K.fits) token.now.number) result self.now }
    {
        let found = self.find(token)?;
        Ok(share_of(&found.opening.account))
    }

    // The i-th of the held names, of which there are at most 64; None past the last.
    pub fn held(&self, i: usize) -> Option<Key>
        ensures { HeldAt D.Disk.did self.now i result }
    {
        self.ledger.names.key_at(i)
    }

    fn read_open(
        &mut self,
        opening: &Opening,
        offset: BlobOffset,
        into: &mut [u8],
    ) -> Result<usize, Fault>
        ensures runs { Does D.Disk.did self.old (λ s. read_open s offset (length into.old) opening.now) (bytes_read result into.new) self.new }
        ensures spares { Spared result into.old into.new }
    {
        let start = offset.in_file(opening.account.offset)?;
        Ok(self.disk.read(opening.account.file, start, into)?)
    }

    // Reads from an offset to the file's end, or as much as there is room for; the rest of the room is left alone.
    pub fn read(&mut self, blob: &Blob, offset: BlobOffset, into: &mut [u8]) -> Result<usize, Fault>
        ensures runs { Does D.Disk.did self.old (λ s. read_rule s blob.now.number offset (length into.old)) (bytes_read result into.new) self.new }
        ensures spares { Spared result into.old into.new }
    {
        let found = self.find(blob)?;
        self.read_open(&found.opening, offset, into)
    }
}
