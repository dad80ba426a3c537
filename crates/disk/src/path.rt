// How the bytes of a write go down.
ghost use Rattle.std.specs.Prelude.{◌≡◌};
ghost use Rattle.disk.specs.Paths.{durable};

#[derive(Clone, Copy, PartialEq, Eq, Debug)]
pub enum Path {
    // One buffer by pwrite(2), which takes no flags.
    Single,
    // By pwritev2(2): durable is RWF_DSYNC, hinted is RWF_DONTCACHE.
    Vectored { durable: bool, hinted: bool },
}

impl Path {
    pub fn is_durable(self) -> bool
        ensures { result ≡ durable self }
    {
        matches!(self, Path::Vectored { durable: true, .. })
    }
}
