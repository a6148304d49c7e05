//! Links of graphs as texts.
ghost use Rattle.std.specs.Prelude.{◌<◌, IsTrue};
ghost use Rattle.path_expr.specs.Walks.{IsGraph};

use items::Items;
use path_expr::Link;
use row_texts::Told;

fn link_of(out: &mut Told, text: &str) -> Link {
    let (from, to) = out.halves(text, ">");
    let from = out.small_number_of(from);
    let to = out.small_number_of(to);
    Link { from, to }
}

/// Links with a blank between two, as `0>1`.
pub(crate) fn links_of(out: &mut Told, text: &str) -> Items<Link> {
    let mut links = Items::new(out.alloc());
    for part in text.split(' ') {
        let link = link_of(out, part);
        out.lose_unless(links.push(link).is_ok());
    }
    links
}

pub(crate) fn is_graph(nodes: u32, links: &[Link]) -> bool
    ensures { IsTrue result → IsGraph nodes links.now }
{
    links
        .iter()
        .all(|link| link.from < nodes && link.to < nodes)
}
