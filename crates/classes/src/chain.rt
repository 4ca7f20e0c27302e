//! Walks up the superclasses of a class.

ghost use Rattle.std.specs.Prelude.{◌≡◌, ◌∷◌, [], IfSome, MatchOption, option_copied};
ghost use Rattle.jvms_program.specs.Resolution.{chain};
ghost use Rattle.classes.specs.Chains.{classes_left};
ghost use Rattle.classes.specs.Places.{class_place};

use crate::list::Classes;
use crate::lookup::numbered;
use jvms_program::program::Class;

/// The rest of a chain: the class of a name, its superclass, and so on, at most `most` classes.
#[derive(Drop)]
pub(crate) struct Chain<'a> {
    program: &'a Classes,
    most: usize,
    name: &'a [u16],
}

/// Returns the name of a class's superclass.
pub fn superclass_name(class: &Class) -> Option<&[u16]>
    ensures { option_copied result ≡ class.now.superclass }
{
    match &class.superclass {
        Some(superclass) => Some(superclass.as_slice()),
        None => None,
    }
}

impl<'a> Chain<'a> {
    /// Creates the chain of a class.
    pub(crate) fn of(program: &'a Classes, name: &'a [u16]) -> Self
        ensures classes { classes_left result ≡ chain program.now name.now }
        ensures program { result.program.now ≡ program.now }
    {
        Chain {
            program,
            most: program.classes().len(),
            name,
        }
    }

    /// Returns the next class with its number, and moves to its superclass.
    #[tactic(auto, using(crate::proofs::ChainLaws::ways))]
    pub(crate) fn next_class(&mut self) -> Option<(usize, &'a Class)>
        ensures classes { MatchOption result (classes_left self.old ≡ [])
            (λ next. classes_left self.old ≡ next.1.now ∷ classes_left self.new) }
        ensures place { IfSome result
            (λ next. next.0 ≡ class_place self.old.program.now next.1.now) }
        ensures program { self.new.program.now ≡ self.old.program.now }
    {
        if self.most == 0 {
            return None;
        }
        let (number, class) = numbered(self.program, self.name)?;
        match superclass_name(class) {
            Some(superclass) => {
                self.most -= 1;
                self.name = superclass;
            }
            None => self.most = 0,
        }
        Some((number, class))
    }
}
