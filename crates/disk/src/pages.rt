// The rules of writes and barriers are what pwritev2(2) and fdatasync(2) define.
ghost use Rattle.disk.specs.Follows.{PagesHold};

// Runs to nothing: it is there for what its contract says.
pub fn follows_pages()
    ensures { PagesHold }
{}
