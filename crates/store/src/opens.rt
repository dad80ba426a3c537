// How a blob is opened. Each function has the rule of the same name, and the arguments of that rule.
ghost use Rattle.std.specs.Prelude.{◌≡◌, true, Err};
ghost use Rattle.faults.specs.declared.store.Failure.TheVariants.{Header};
ghost use Rattle.faults.specs.declared.store.Fault.TheVariants.{Io};
ghost use Rattle.rules.specs.Ends.{end_rule};
ghost use Rattle.rules.specs.Opens.{existing_rule, fail_name, fresh_rule, lay_rule, measure_rule, open_rule};
ghost use Rattle.ledger.specs.Adds.{admits, named};
ghost use Rattle.store.specs.Of.{answered, Does, opened_of, state};

use crate::answers::Answer;
use crate::storage::Store;
use crate::tokens::{Blob, Opened, Owing};
use disk::Disk;
use faults::{DiskFault, Failure, Fault};
use keys::Key;
use rules::{Mode, is_owing};

impl<D: Disk> Store<D> {
    // Ends an opening, and closes its file unless a ticket is out.
    pub(crate) fn end(&mut self, number: u64)
        ensures { Does D.Disk.did self.old (λ s. end_rule s number (tt {0})) (tt {0}) self.new }
    {
        if let Some(file) = self.ledger.end(number) {
            self.disk.close(file);
        }
    }

    // Ends an opening that is refused.
    pub(crate) fn refuse<T: Answer>(&mut self, number: u64, fault: Fault) -> Result<T, Fault>
        ensures { Does D.Disk.did self.old (λ s. end_rule s number (Err fault)) (answered T.told result) self.new }
    {
        self.end(number);
        Err(fault)
    }

    // Ends an opening whose header failed. What its file holds is not known, so the name keeps the failure. `refuse_flush` has
    // a rule of its own, by which the opening keeps it too.
    fn refuse_header(&mut self, key: &Key, number: u64, fault: DiskFault) -> Result<Opened, Fault>
        ensures { Does D.Disk.did self.old (λ s. end_rule (fail_name s key.now number (Header fault)) number (Err (Io fault))) (answered opened_of result) self.new }
    {
        self.ledger.fail(key, number, Failure::Header(fault));
        self.refuse(number, Fault::Io(fault))
    }

    // A file that reaches its data yields a blob. `make_ready` reads the same and leaves another state: to share the reading
    // takes a rule and three proofs more, and is no plainer. Its parameters, as those of `lay`, are the arguments of the rule of
    // its name.
    fn measure(&mut self, number: u64, file: u64, offset: u64) -> Result<Opened, Fault>
        ensures { Does D.Disk.did self.old (λ s. measure_rule s number file offset) (answered opened_of result) self.new }
    {
        match self.disk.length(file) {
            Ok(length) if length >= offset => {
                Ok(Opened::Ready(Blob::new(number), length - offset))
            }
            _ => self.refuse(number, Fault::ReadFailed),
        }
    }

    // An opening with debt is not measured yet: what its file holds may still change.
    fn open_existing(&mut self, key: &Key, file: u64, offset: u64) -> Result<Opened, Fault>
        requires { admits (state self.old) key.now ≡ true }
        ensures { Does D.Disk.did self.old (λ s. existing_rule s key.now file offset) (answered opened_of result) self.new }
    {
        let was = self.ledger.names.find(key);
        if let Err(fault) = self.ledger.bar(&was) {
            self.disk.close(file);
            return Err(fault);
        }
        let number = self.ledger.admit(key, file, offset, &was).unwrap();
        if is_owing(&was) {
            return Ok(Opened::Owed(Owing::new(number)));
        }
        self.measure(number, file, offset)
    }

    // Directory and root are flushed before the header is laid, so that no header stands under a name that may vanish. No `?`:
    // the opening has to end before the refusal.
    fn lay(&mut self, key: &Key, number: u64, file: u64, header: &[u8]) -> Result<Opened, Fault>
        ensures { Does D.Disk.did self.old (λ s. lay_rule s key.now number file header.now) (answered opened_of result) self.new }
    {
        if let Err(fault) = self.disk.flush_directory(key.partition()) {
            return self.refuse(number, fault.into());
        }
        if let Err(fault) = self.disk.flush_root() {
            return self.refuse(number, fault.into());
        }
        if let Err(fault) = self.disk.header(file, header) {
            return self.refuse_header(key, number, fault.0);
        }
        self.measure(number, file, header.len() as u64)
    }

    // A fresh opening takes over nothing of what its name's entry was.
    fn open_fresh(&mut self, key: &Key, file: u64, header: &[u8]) -> Result<Opened, Fault>
        requires { admits (state self.old) key.now ≡ true }
        ensures { Does D.Disk.did self.old (λ s. fresh_rule s key.now file header.now) (answered opened_of result) self.new }
    {
        let number = self
            .ledger
            .admit(key, file, header.len() as u64, &None)
            .unwrap();
        self.lay(key, number, file, header)
    }

    // Opens a blob under a partition and a name. The header is what a fresh file begins with; an existing one has a header
    // of that length.
    pub fn open(
        &mut self,
        partition: &[u8],
        name: &[u8],
        mode: Mode,
        header: &[u8],
    ) -> Result<Opened, Fault>
        ensures { Does D.Disk.did self.old (λ s. open_rule s (named partition.now name.now) mode header.now) (answered opened_of result) self.new }
    {
        let key = self.ledger.check_open(partition, name, header.len())?;
        let file = self.disk.open(&key)?;
        match mode {
            Mode::Existing => self.open_existing(&key, file, header.len() as u64),
            Mode::Fresh => self.open_fresh(&key, file, header),
        }
    }
}
