ghost use Rattle.std.specs.Prelude.{◌≡◌, ◌++◌, ◌∷◌, [], IfOk, OnOk};
ghost use Rattle.analysis.specs.Judging.{column_names, global_names, names_onto};

use items::Items;
use std::alloc::{AllocError, Global};
use syntax_tree::{Column, Name, Program};

/// The names of the globals.
pub fn global_names(alloc: Global, program: &Program) -> Result<Items<Name>, AllocError>
    ensures { IfOk result (λ names. names ≡ global_names program.now) }
{
    let mut names = Items::new(alloc);
    for global in program.globals.as_slice() {
        push_name(&global.name, &mut names)?;
    }
    Ok(names)
}

/// Adds the names of the columns that have one.
pub(crate) fn add_names(columns: &[Column], names: &mut Items<Name>) -> Result<(), AllocError>
    ensures { OnOk result (names.new ≡ names.old ++ column_names columns.now) }
{
    for column in columns {
        add_name(&column.name, names)?;
    }
    Ok(())
}

fn add_name(name: &Option<Name>, names: &mut Items<Name>) -> Result<(), AllocError>
    ensures { OnOk result (names.new ≡ names.old ++ names_onto name.now []) }
{
    if let Some(name) = name {
        push_name(name, names)?;
    }
    Ok(())
}

fn push_name(name: &Name, names: &mut Items<Name>) -> Result<(), AllocError>
    ensures { OnOk result (names.new ≡ names.old ++ name.now ∷ []) }
{
    names.push(name.clone()?)?;
    Ok(())
}
