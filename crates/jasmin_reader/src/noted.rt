//! Adds the members of statements to the sets of members.

ghost use Rattle.std.specs.Prelude.{OnOk};
ghost use Rattle.jasmin_reader.specs.Members.{FollowsFields, FollowsMethods};

use crate::members::Members;
use jasmin::reading::OpenMethod;
use jasmin::statement::Statement;
use std::alloc::AllocError;

/// Adds the field of a statement, if the statement is one.
#[tactic(auto, using(crate::proofs::NotedMembers::no_field))]
pub(crate) fn note_field(fields: &mut Members, statement: &Statement) -> Result<(), AllocError>
    ensures { OnOk result (FollowsFields fields.old fields.new statement.now) }
{
    match statement {
        Statement::Field(field) => fields.put(&field.name, &field.descriptor),
        _ => Ok(()),
    }
}

/// Adds the open method if the statement ends it.
#[tactic(auto, using(crate::proofs::NotedMembers::no_method, crate::proofs::NotedMembers::nothing_ended))]
pub(crate) fn note_method(
    methods: &mut Members,
    method: &Option<OpenMethod>,
    statement: &Statement,
) -> Result<(), AllocError>
    ensures { OnOk result (FollowsMethods methods.old methods.new method.now statement.now) }
{
    match statement {
        Statement::EndMethod => match method {
            Some(method) => methods.put(&method.name, &method.descriptor),
            None => Ok(()),
        },
        _ => Ok(()),
    }
}
