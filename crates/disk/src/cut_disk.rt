// A disk whose power can fail.
ghost use Rattle.std.specs.Prelude.{◌≡◌, ℕ};
ghost use Rattle.disk.specs.Contents.{Among, Only};

use crate::disk::Disk;

// How each block fares is open, and does not hang on how others fare.
pub trait CutDisk: Disk {
    // The power fails and comes back: each block holds one of its possible contents.
    fn cut(&mut self)
        ensures count { Self.Disk.count self.new ≡ Self.Disk.count self.old }
        ensures only { Only (Self.Disk.latest self.new) (Self.Disk.possible self.new) }
        ensures picked { (i : ℕ) → Among (Self.Disk.latest self.new i) (Self.Disk.possible self.old i) };
}
