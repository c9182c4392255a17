//! Things that are given out and come back: the connections of a door, the stores and doors of a host. They are remembered for contracts
//! alone, as histories that take no memory: what is refused for want of it is never a thing that was made.
ghost use Rattle.std.specs.Prelude.{◌≡◌, ◌++◌, [], ◌∷◌};

use http_server::Log;

/// The things that were given, and those that came back, as they were then.
#[derive(Drop)]
pub struct Lent<T> {
    pub gave: Log<T, ()>,
    pub back: Log<T, ()>,
}

impl<T> Lent<T> {
    ghost use Rattle.client_doors.specs.Lending.{things_back, things_given};

    /// None was given yet.
    pub fn new() -> Lent<T>
        ensures gave { things_given result ≡ [] }
        ensures back { things_back result ≡ [] }
    {
        Lent {
            gave: Log::new(),
            back: Log::new(),
        }
    }

    /// Remembers things that are given.
    pub fn give(&mut self, things: &[T])
        ensures gave { things_given self.new ≡ things_given self.old ++ things.now }
        ensures back { self.new.back ≡ self.old.back }
    {
        'things: for thing in things {
            self.give_one(thing);
        }
    }

    /// Remembers one thing that is given.
    pub fn give_one(&mut self, thing: &T)
        ensures gave { things_given self.new ≡ things_given self.old ++ thing.now ∷ [] }
        ensures back { self.new.back ≡ self.old.back }
    {
        self.gave = self.gave.and(thing, &());
    }

    /// Remembers things that come back.
    pub fn take_back(&mut self, things: &[T])
        ensures back { things_back self.new ≡ things_back self.old ++ things.now }
        ensures gave { self.new.gave ≡ self.old.gave }
    {
        'things: for thing in things {
            self.take_one_back(thing);
        }
    }

    /// Remembers one thing that comes back.
    pub fn take_one_back(&mut self, thing: &T)
        ensures back { things_back self.new ≡ things_back self.old ++ thing.now ∷ [] }
        ensures gave { self.new.gave ≡ self.old.gave }
    {
        self.back = self.back.and(thing, &());
    }
}
