ghost use Rattle.std.specs.Prelude.{◌≡◌, IfOk};

use crate::line::{Line, copy_lines};
use crate::name::Name;
use items::Items;
use std::alloc::{AllocError, Global};

/// A text as it is parsed: its declarations in order.
#[derive(PartialEq, Eq, Drop)]
pub struct Tree {
    pub items: Items<Item>,
}

/// A declaration at the level of the text. `at` is the place of its name, a byte offset, and `end`
/// that of a body's closing brace. A prototype with empty brackets says nothing of its parameters.
#[derive(PartialEq, Eq, Drop)]
pub enum Item {
    Global {
        name: Name,
        at: u32,
        init: i128,
    },
    Proto {
        name: Name,
        at: u32,
        returns: bool,
        params: Option<u32>,
    },
    Body {
        name: Name,
        at: u32,
        returns: bool,
        params: Items<Param>,
        lines: Items<Line>,
        end: u32,
    },
}

/// A parameter and the place of its name.
#[derive(Clone, PartialEq, Eq, Drop)]
pub struct Param {
    pub name: Name,
    pub at: u32,
}

impl Tree {
    /// A copy of the tree.
    pub fn copy(&self, alloc: Global) -> Result<Tree, AllocError>
        ensures { IfOk result (λ c. c ≡ self.now) }
    {
        let mut items = Items::new(alloc);
        for item in self.items.as_slice() {
            items.push(item.copy(alloc)?)?;
        }
        Ok(Tree { items })
    }
}

impl Item {
    /// A copy of the declaration.
    pub fn copy(&self, alloc: Global) -> Result<Item, AllocError>
        ensures { IfOk result (λ c. c ≡ self.now) }
    {
        match self {
            Item::Global { name, at, init } => copy_global(name, *at, *init),
            Item::Proto {
                name,
                at,
                returns,
                params,
            } => copy_proto(name, *at, *returns, *params),
            Item::Body {
                name,
                at,
                returns,
                params,
                lines,
                end,
            } => {
                let lines = copy_lines(alloc, lines)?;
                copy_body(name, *at, *returns, params, lines, *end)
            }
        }
    }
}

fn copy_global(name: &Name, at: u32, init: i128) -> Result<Item, AllocError>
    ensures { IfOk result (λ c. c ≡ Item.Global name.now at init) }
{
    let name = name.clone()?;
    Ok(Item::Global { name, at, init })
}

fn copy_proto(name: &Name, at: u32, returns: bool, params: Option<u32>) -> Result<Item, AllocError>
    ensures { IfOk result (λ c. c ≡ Item.Proto name.now at returns params) }
{
    let name = name.clone()?;
    Ok(Item::Proto {
        name,
        at,
        returns,
        params,
    })
}

fn copy_body(
    name: &Name,
    at: u32,
    returns: bool,
    params: &Items<Param>,
    lines: Items<Line>,
    end: u32,
) -> Result<Item, AllocError>
    ensures { IfOk result (λ c. c ≡ Item.Body name.now at returns params.now lines end) }
{
    let name = name.clone()?;
    let params = params.clone()?;
    Ok(Item::Body {
        name,
        at,
        returns,
        params,
        lines,
        end,
    })
}
