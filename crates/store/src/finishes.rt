// How an opening is finished, given up or closed.
ghost use Rattle.std.specs.Prelude.{◌≡◌, Ok, Err, ◌≢◌};
ghost use Rattle.faults.specs.declared.store.Failure.TheVariants.{Sync};
ghost use Rattle.faults.specs.declared.store.Fault.TheVariants.{BlobSyncFailed, Unsettled};
ghost use Rattle.rules.specs.Calls.{left_of};
ghost use Rattle.rules.specs.Ends.{change, end_rule};
ghost use Rattle.rules.specs.Opens.{fail_name};
ghost use Rattle.rules.specs.Finishes.{at_stage, by_entry, clean_name, close_rule, debt_rule, finish_rule, give_up_rule, keep, owned, ready_rule};
ghost use Rattle.store.specs.Of.{answered, Does, of_kind, ready_of};

use crate::found::Found;
use crate::storage::Store;
use crate::tokens::{Blob, Kind, Owing, Token};
use disk::Disk;
use faults::{DiskFault, Failure, Fault};
use rules::Entry;

impl<D: Disk> Store<D> {
    // Reads the length as `measure` does, and leaves another state: to share the reading takes a rule and three proofs more, and
    // is no plainer.
    fn make_ready(&mut self, found: &Found) -> Result<(Blob, u64), Fault>
        ensures { Does D.Disk.did self.old (λ s. ready_rule s found.now.number found.now.opening.account) (answered ready_of result) self.new }
    {
        let account = found.opening.account;
        match self.disk.length(account.file) {
            Ok(length) if length >= account.offset => {
                self.ledger.make_blob(found.number);
                Ok((Blob::new(found.number), length - account.offset))
            }
            _ => self.refuse(found.number, Fault::ReadFailed),
        }
    }

    // The debt is flushed.
    fn make_clean(&mut self, found: &Found) -> Result<(Blob, u64), Fault>
        ensures { Does D.Disk.did self.old (λ s. ready_rule (clean_name s found.now.opening.key found.now.number) found.now.number found.now.opening.account) (answered ready_of result) self.new }
    {
        self.ledger.clean(&found.opening.key, found.number);
        self.make_ready(found)
    }

    // The debt is not flushed, and never will be: the name and the opening keep that. `refuse_header` has a rule of its own.
    fn refuse_flush(&mut self, found: &Found, fault: DiskFault) -> Result<(Blob, u64), Fault>
        ensures { Does D.Disk.did self.old (λ s. end_rule (change (fail_name s found.now.opening.key found.now.number (Sync fault)) found.now.number (keep (Sync fault))) found.now.number (Err (BlobSyncFailed fault))) (answered ready_of result) self.new }
    {
        let failure = Failure::Sync(fault);
        self.ledger.fail(&found.opening.key, found.number, failure);
        self.ledger.keep(found.number, failure);
        self.refuse(found.number, Fault::BlobSyncFailed(fault))
    }

    // Flushes the debt through the file of the new opening.
    fn flush_debt(&mut self, found: &Found) -> Result<(Blob, u64), Fault>
        ensures { Does D.Disk.did self.old (λ s. debt_rule s found.now.number found.now.opening) (answered ready_of result) self.new }
    {
        let file = found.opening.account.file;
        let mark = self.disk.barrier_start(file);
        match self.disk.barrier_end(file, mark) {
            Ok(()) => self.make_clean(found),
            Err(fault) => self.refuse_flush(found, fault.0),
        }
    }

    // What the entry of the name says, where it is still this opening's.
    fn finish_owned(&mut self, found: &Found, entry: &Entry) -> Result<(Blob, u64), Fault>
        ensures { Does D.Disk.did self.old (λ s. owned s found.now.number found.now.opening entry.now.dirty entry.now.failure) (answered ready_of result) self.new }
    {
        match entry.failure {
            Some(failure) => self.refuse(found.number, failure.into()),
            None if entry.dirty => self.flush_debt(found),
            None => self.make_ready(found),
        }
    }

    fn finish_by_entry(&mut self, found: &Found) -> Result<(Blob, u64), Fault>
        ensures { Does D.Disk.did self.old (λ s. by_entry s found.now.number found.now.opening (s.names.at found.now.opening.key)) (answered ready_of result) self.new }
    {
        match self.ledger.names.find(&found.opening.key) {
            Some(entry) if entry.opening == found.number => self.finish_owned(found, &entry),
            _ => self.make_ready(found),
        }
    }

    // Turns an opening that owes into a blob, with its length. It is given back while the opening before it has a ticket
    // out, and is spent otherwise.
    pub fn finish(&mut self, owing: &mut Owing) -> Result<(Blob, u64), Fault>
        ensures runs { Does D.Disk.did self.old (λ s. finish_rule s owing.old.number) (answered ready_of result) self.new }
        ensures token { owing.new.number ≡ left_of owing.old.number result }
        ensures spent { (result ≢ Err Unsettled) → owing.new.number ≡ 0 }
    {
        let found = self.find(owing);
        if let Ok(found) = &found {
            if self.ledger.unspent(found.opening.account.predecessor) {
                return Err(Fault::Unsettled);
            }
        }
        owing.spend();
        self.finish_by_entry(&found?)
    }

    // Spends a token, and ends its opening.
    fn end_token<K: Kind>(&mut self, token: &mut Token<K>) -> Result<(), Fault>
        ensures runs { Does D.Disk.did self.old (λ s. at_stage s (of_kind K.fits) (λ _. end_rule s token.old.number (Ok (tt {0}))) (s.openings.at token.old.number)) result self.new }
        ensures token { token.new.number ≡ left_of token.old.number result }
        ensures spent { token.new.number ≡ 0 }
    {
        let found = self.find(token);
        token.spend();
        self.end(found?.number);
        Ok(())
    }

    // Ends an opening that owes, with its debt. Two calls and not one generic: each has its rule.
    pub fn give_up(&mut self, owing: &mut Owing) -> Result<(), Fault>
        ensures runs { Does D.Disk.did self.old (λ s. give_up_rule s owing.old.number) result self.new }
        ensures token { owing.new.number ≡ left_of owing.old.number result }
        ensures spent { owing.new.number ≡ 0 }
    {
        self.end_token(owing)
    }

    // Ends the opening of a blob. Its file stays open while a ticket is out.
    pub fn close(&mut self, blob: &mut Blob) -> Result<(), Fault>
        ensures runs { Does D.Disk.did self.old (λ s. close_rule s blob.old.number) result self.new }
        ensures token { blob.new.number ≡ left_of blob.old.number result }
        ensures spent { blob.new.number ≡ 0 }
    {
        self.end_token(blob)
    }
}
