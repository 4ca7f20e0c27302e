//! Executes the commands of a session.

ghost use Rattle.std.specs.Prelude.{◌≡◌, IfErr, IfOk, OnErr};
ghost use Rattle.debugger.specs.Commands.{Did, IsRefused};
ghost use Rattle.debugger.specs.Sessions.{IsBody, debugger_of};
ghost use Rattle.debugger_commands.specs.declared.command.Command.TheVariants as command;

use crate::body::Body;
use crate::places::method_of_place;
use crate::view::View;
use debugger_commands::{Command, DebugFault, Place};
use jvms_machine::machine::ThreadId;
use shared_data::shared::Text;

impl Body<'_> {
    /// Adds a breakpoint at a place.
    fn break_at(&mut self, place: &Place) -> Result<View, DebugFault>
        requires { IsBody self.old }
        ensures body { IsBody self.new }
        ensures did { IfOk result (λ view. Did (command.Break place.now) (debugger_of self.old)
            (debugger_of self.new) view) }
        ensures refused { IfErr result (λ fault. IsRefused (command.Break place.now)
            (debugger_of self.old) fault) }
        ensures kept { OnErr result (debugger_of self.new ≡ debugger_of self.old) }
    {
        let program = self.timeline.here.machine.program();
        let Some(method) = method_of_place(program, place) else {
            return Err(DebugFault::NoPlace);
        };
        if self.breakpoints.next() > u32::MAX as u64 {
            return Err(DebugFault::NoBreakpoint);
        }
        match self.add_breakpoint(method, place.instruction) {
            Ok(breakpoint) => Ok(View::Added(breakpoint)),
            Err(_) => Err(DebugFault::Memory),
        }
    }

    /// Removes breakpoint k.
    fn delete(&mut self, k: u32) -> Result<View, DebugFault>
        requires { IsBody self.old }
        ensures body { IsBody self.new }
        ensures did { IfOk result (λ view. Did (command.Delete k) (debugger_of self.old)
            (debugger_of self.new) view) }
        ensures refused { IfErr result (λ fault. IsRefused (command.Delete k)
            (debugger_of self.old) fault) }
        ensures kept { OnErr result (debugger_of self.new ≡ debugger_of self.old) }
    {
        if !self.breakpoints.delete(k) {
            return Err(DebugFault::NoBreakpoint);
        }
        self.replayed = 0;
        Ok(View::Removed(k))
    }

    /// Returns a view without taking a turn.
    fn show(&mut self, view: View) -> View
        requires { IsBody self.old }
        ensures body { IsBody self.new }
        ensures debugger { debugger_of self.new ≡ record (debugger_of self.old) { replayed = 0 } }
        ensures view { result ≡ view }
    {
        self.replayed = 0;
        view
    }

    /// Shows the frames of a thread.
    fn show_frames(&mut self, t: ThreadId) -> Result<View, DebugFault>
        requires { IsBody self.old }
        ensures body { IsBody self.new }
        ensures did { IfOk result (λ view. Did (command.Frames t) (debugger_of self.old)
            (debugger_of self.new) view) }
        ensures refused { IfErr result (λ fault. IsRefused (command.Frames t)
            (debugger_of self.old) fault) }
        ensures kept { OnErr result (debugger_of self.new ≡ debugger_of self.old) }
    {
        match self.timeline.here.machine.has_ended(t) {
            Some(_) => Ok(self.show(View::Frames(t))),
            None => Err(DebugFault::NoThread),
        }
    }

    /// Shows the object with this reference.
    fn show_object(&mut self, r: u32) -> Result<View, DebugFault>
        requires { IsBody self.old }
        ensures body { IsBody self.new }
        ensures did { IfOk result (λ view. Did (command.Object r) (debugger_of self.old)
            (debugger_of self.new) view) }
        ensures refused { IfErr result (λ fault. IsRefused (command.Object r)
            (debugger_of self.old) fault) }
        ensures kept { OnErr result (debugger_of self.new ≡ debugger_of self.old) }
    {
        match self.timeline.here.machine.class_of(r) {
            Some(_) => Ok(self.show(View::Object(r))),
            None => Err(DebugFault::NoObject),
        }
    }

    /// Shows a class.
    fn show_class(&mut self, name: &Option<Text>) -> Result<View, DebugFault>
        requires { IsBody self.old }
        ensures body { IsBody self.new }
        ensures did { IfOk result (λ view. Did (command.Class name.now) (debugger_of self.old)
            (debugger_of self.new) view) }
        ensures refused { IfErr result (λ fault. IsRefused (command.Class name.now)
            (debugger_of self.old) fault) }
        ensures kept { OnErr result (debugger_of self.new ≡ debugger_of self.old) }
    {
        let Some(name) = name else {
            return Err(DebugFault::NoPlace);
        };
        let program = self.timeline.here.machine.program();
        match program.class_number(name.as_slice()) {
            Some(class) => Ok(self.show(View::Class(class))),
            None => Err(DebugFault::NoPlace),
        }
    }

    /// Executes a command. If it is refused nothing changes.
    pub(crate) fn carry_out(&mut self, command: &Command) -> Result<View, DebugFault>
        requires { IsBody self.old }
        ensures body { IsBody self.new }
        ensures did { IfOk result
            (λ view. Did command.now (debugger_of self.old) (debugger_of self.new) view) }
        ensures refused { IfErr result
            (λ fault. IsRefused command.now (debugger_of self.old) fault) }
        ensures kept { OnErr result (debugger_of self.new ≡ debugger_of self.old) }
    {
        let position = self.timeline.position;
        let end = self.timeline.choices.len();
        let moved = match command {
            Command::Step(n) => self.go_to((position + *n as usize).min(end)),
            Command::Back(n) => self.go_to(position.saturating_sub(*n as usize).min(end)),
            Command::Goto(n) => self.go_to((*n as usize).min(end)),
            Command::Continue => self.go_to_hit(),
            Command::ReverseContinue => self.go_back_to_hit(),
            Command::Pick(t) => self.pick(*t),
            Command::Break(place) => return self.break_at(place),
            Command::Delete(k) => return self.delete(*k),
            Command::Threads => return Ok(self.show(View::Threads)),
            Command::Frames(t) => return self.show_frames(*t),
            Command::Object(r) => return self.show_object(*r),
            Command::Class(name) => return self.show_class(name),
            Command::Trace => return Ok(self.show(View::Trace)),
            Command::Output => return Ok(self.show(View::Output)),
        };
        match moved {
            Ok(()) => Ok(View::Position),
            Err(_) => Err(DebugFault::Memory),
        }
    }
}
