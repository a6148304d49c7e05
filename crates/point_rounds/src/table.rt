ghost use Rattle.std.specs.Prelude.{◌≡◌, [], ◌∷◌, slice_get, unwrap_or};
ghost use Rattle.syntax_tree.specs.declared.program.Program.{Program as PlainProgram};
ghost use Rattle.flow_graph.specs.FlowGraph.{graph_of};
ghost use Rattle.point_induction.specs.Points.{heads_of};
ghost use Rattle.point_rounds.specs.Table.{list_at_node, rows_at, rows_at_exit};

use items::Items;
use linear_terms::Row;

/// The rows at each place of a program. Those at points stand by the number of the procedure, and
/// in it by its points: its entry, and then its heads in the order of their nodes. They are over
/// the procedure's columns, at an entry over the globals and parameters alone. Those at an exit
/// stand by the number of the procedure, over the columns of its entry and, behind them, the
/// globals that it leaves and its value if it returns one.
#[derive(Drop)]
pub struct PointTable {
    pub points: Items<Items<Items<Row>>>,
    pub exits: Items<Items<Row>>,
}

/// The rows at a point of a procedure, whose loops have these heads, in ascending order. There are
/// none where there is no such point.
pub fn rows_at<'t>(heads: &[u32], table: &'t PointTable, proc: u32, node: u32) -> &'t [Row]
    ensures { (program : PlainProgram) → heads.now ≡ heads_of (graph_of program proc)
        → result.now ≡ rows_at program table.now proc node }
{
    let lists = list_at(table.points.as_slice(), proc as usize);
    rows_of_point(heads, lists, node)
}

/// The rows at a point among those at the points of its procedure.
fn rows_of_point<'t>(heads: &[u32], lists: &'t [Items<Row>], node: u32) -> &'t [Row]
    ensures { result.now ≡ list_at_node node (0 ∷ heads.now) lists.now }
{
    match lists {
        [entry, others @ ..] => {
            if node == 0 {
                entry.as_slice()
            } else {
                rows_at_head(heads, others, node)
            }
        }
        [] => &[],
    }
}

/// The rows at a head among those at heads.
fn rows_at_head<'t>(heads: &[u32], lists: &'t [Items<Row>], node: u32) -> &'t [Row]
    ensures { result.now ≡ list_at_node node heads.now lists.now }
{
    for (place, head) in heads.iter().enumerate() {
        if node == *head {
            return list_at(lists, place);
        }
    }
    &[]
}

/// The rows at the exit of a procedure; none of one that is not there.
pub fn rows_at_exit(table: &PointTable, proc: u32) -> &[Row]
    ensures { result.now ≡ rows_at_exit table.now proc }
{
    list_at(table.exits.as_slice(), proc as usize)
}

/// The list at a place; none past their end.
pub(crate) fn list_at<T>(lists: &[Items<T>], place: usize) -> &[T]
    ensures { result.now ≡ unwrap_or (slice_get lists.now place) [] }
{
    match lists.get(place) {
        Some(list) => list.as_slice(),
        None => &[],
    }
}
