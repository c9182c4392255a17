ghost use Rattle.std.specs.Prelude.{◌≡◌, ◌<◌, ◌≤◌, ◌^◌, ℕ, ◌+◌, List, Option, Some, length, IfOk, OnOk};
ghost use Rattle.std.specs.Option.{option_map};
ghost use Rattle.srch_base.specs.Counts.{HasCause};
ghost use Rattle.chunk_store.specs.Images.{Image, Told, Changes, contents, Writes, Vanishes, IsThere, Reads};
ghost use Rattle.chunk_store.specs.CrashModel.{KeepsAll, Makes, Moves, OnlyLooks, Tears, MayVanish};

use srch_base::Failed;

/// Files by their numbers.
///
/// A disk may tell what a read gives, and then it also tells what a crash may leave; a real one tells nothing. What is asked
/// of a call, and what it answers, is said of what is told.
pub trait Disk {
    /// What a read gives, where that is told.
    ghost told: { Self → Option Image };

    /// What a crash now may leave.
    ghost may_leave: { Self → Image → Type 0 };

    /// The clock: a number that doesn't fall.
    ghost clock: { Self → ℕ };

    /// What a crash at some moment since a time may have left.
    ghost may_have_left: { Self → ℕ → Image → Type 0 };

    /// How often the disk has failed.
    ghost faults: { Self → ℕ };

    /// The length of a file in bytes. None where it isn't there.
    fn len(&mut self, file: u32) -> Result<Option<u64>, Failed>
        ensures value { IfOk result (λ len. Told (λ image. len ≡ option_map length (image file)) (told self.old)) }
        ensures looks { OnlyLooks told clock may_leave may_have_left self.old self.new }
        ensures keeps { KeepsAll may_leave self.old self.new }
        ensures cause { HasCause (faults self.old) (faults self.new) result };

    /// Reads a range that lies inside the file.
    fn read(&mut self, file: u32, at: u64, into: &mut [u8]) -> Result<(), Failed>
        requires inside { Told (λ image. at + length into.old ≤ length (contents (image file))) (told self.old) }
        ensures value { OnOk result (Told (λ image. Reads (contents (image file)) at into.new) (told self.old)) }
        ensures looks { OnlyLooks told clock may_leave may_have_left self.old self.new }
        ensures keeps { KeepsAll may_leave self.old self.new }
        ensures cause { HasCause (faults self.old) (faults self.new) result };

    /// Writes over what is there, and past the end. A file that isn't there is made. After an error the range may hold any
    /// bytes.
    fn write(&mut self, file: u32, at: u64, bytes: &[u8]) -> Result<(), Failed>
        requires inside { Told (λ image. at ≤ length (contents (image file))) (told self.old) }
        ensures written { Makes (Changes file (Writes at bytes.now)) (Changes file (Tears at (length bytes.now))) result (told self.old) (told self.new) }
        ensures crash { Moves clock may_leave may_have_left (Changes file (Tears at (length bytes.now))) self.old self.new }
        ensures cause { HasCause (faults self.old) (faults self.new) result };

    /// After it, a crash leaves of this file what a read gives.
    fn sync(&mut self, file: u32) -> Result<(), Failed>
        requires there { Told (λ image. IsThere (image file)) (told self.old) }
        ensures durable { OnOk result (Told (λ image. (x : Image) → may_leave self.new x → x file ≡ image file) (told self.new)) }
        ensures looks { OnlyLooks told clock may_leave may_have_left self.old self.new }
        ensures cause { HasCause (faults self.old) (faults self.new) result };

    /// Removes a file. One that isn't there is as good as removed.
    fn remove(&mut self, file: u32) -> Result<(), Failed>
        ensures gone { Makes (Changes file Vanishes) (Changes file MayVanish) result (told self.old) (told self.new) }
        ensures crash { Moves clock may_leave may_have_left (Changes file MayVanish) self.old self.new }
        ensures cause { HasCause (faults self.old) (faults self.new) result };

    /// What a read gives, a crash may leave.
    ghost passes: { (disk : Self) (x : Image) → told disk ≡ Some x → may_leave disk x };

    /// A disk that tells what a crash may leave tells what a read gives.
    ghost tells: { (disk : Self) (x : Image) → may_leave disk x → (image : Image) × (told disk ≡ Some image) };

    /// A place is a number of 64 bits.
    ghost short: { (disk : Self) (x : Image) (file : ℕ) → may_leave disk x → length (contents (x file)) < 2 ^ 64 };

    /// This moment is one of those since an earlier one.
    ghost counts_now: { (disk : Self) (t : ℕ) (x : Image) → t ≤ clock disk → may_leave disk x → may_have_left disk t x };

    /// Since this moment there is no other.
    ghost only_now: { (disk : Self) (x : Image) → may_have_left disk (clock disk) x → may_leave disk x };
}
