// What a disk says when it fails.
ghost use Rattle.std.specs.Prelude.{◌≡◌};
ghost use Rattle.faults.specs.Numbers.{code};

// An enum of one case, since a rule of the project keeps faults apart from numbers by type.
#[derive(Clone, Copy, PartialEq, Eq, Debug)]
pub enum DiskFault {
    // The code of the system, as errno has it.
    Code(u16),
}

impl DiskFault {
    pub fn code(self) -> u16
        ensures { result ≡ code self }
    {
        let DiskFault::Code(code) = self;
        code
    }
}
