//! Laws about accesses. Each is the contract of a function that does nothing.

ghost use Rattle.std.specs.Prelude.{◌≡◌, ◌↔◌, true};
ghost use Rattle.accesses.specs.Accesses.{Access, accesses_of, against};
ghost use Rattle.jvms_machine.specs.declared.trace.Item.{Item};
ghost use Rattle.velodrome.specs.Conflicts.{conflict};
ghost use Rattle.velodrome.specs.Cycles.{IsIn};

/// Proves that two items conflict if and only if two of their accesses conflict.
pub fn conflicts_are_accesses_against_each_other()
    ensures { (a b : Item) → (conflict a b ≡ true) ↔ ((x : Access) × (y : Access)
        × IsIn x (accesses_of a) × IsIn y (accesses_of b) × (against x y ≡ true)) }
{}
