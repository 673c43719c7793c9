//! The marks of object literals.

ghost use Rattle.std.specs.Prelude.{◌≡◌, ◌++◌, OnOk};
ghost use Rattle.locations.specs.Marks.{key_marks, property_marks, properties_marks};

use crate::expressions::{expression_marks, function_marks};
use crate::marks::Marked;
use js_tree::tree::{PropertyDefinition, PropertyDefinitions, PropertyName};
use std::alloc::AllocError;

/// The members of an object literal.
#[cycle(tree_marks)]
pub fn properties_marks(
    marks: &mut Vec<Marked>,
    properties: &PropertyDefinitions,
) -> Result<(), AllocError>
    ensures { OnOk result (marks.new.items ≡ marks.old.items ++ properties_marks properties.now) }
{
    for item in &properties.items {
        property_marks(marks, item)?;
    }
    Ok(())
}

/// A member.
#[cycle(tree_marks)]
fn property_marks(marks: &mut Vec<Marked>, property: &PropertyDefinition) -> Result<(), AllocError>
    ensures { OnOk result (marks.new.items ≡ marks.old.items ++ property_marks property.now) }
{
    match property {
        PropertyDefinition::Shorthand { .. } => Ok(()),
        PropertyDefinition::Value { key, value } => {
            key_marks(marks, key)?;
            expression_marks(marks, value)
        }
        PropertyDefinition::Method {
            node,
            key,
            body,
            ..
        } => {
            key_marks(marks, key)?;
            function_marks(marks, node.0, body)
        }
    }
}

/// The key of a member.
#[cycle(tree_marks)]
fn key_marks(marks: &mut Vec<Marked>, key: &PropertyName) -> Result<(), AllocError>
    ensures { OnOk result (marks.new.items ≡ marks.old.items ++ key_marks key.now) }
{
    match key {
        PropertyName::Word(_) => Ok(()),
        PropertyName::StringLiteral(_) => Ok(()),
        PropertyName::NumericLiteral(_) => Ok(()),
        PropertyName::Computed(key) => expression_marks(marks, key),
    }
}
