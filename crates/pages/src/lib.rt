// The reader of a page of frames: the page is judged line by line, and what it holds is written to lent tables.
#![tactic(auto)]

ghost use Rattle.std.specs.Prelude.{◌≡◌, ◌↔◌, ℕ, length};
ghost use Rattle.frames.specs.declared.Head.{Head};
ghost use Rattle.frames.specs.Pages.{refused_page, sheet_page, read_page, GoodPage, PageRefuses};
ghost use Rattle.frames.specs.Texts.{OneText};

use crate::judging::judge_page;
use crate::page_tables::{read_head, read_tables};
use frames::{PageContents, PageRefused};

pub mod heads;
mod judging;
mod page_tables;

// Reads a page: the words of its vertices, edges and points are written to the fronts of the lent tables; or it
// gives one of the refusals 30, 31, 32, 1 and 33 and writes nothing.
pub fn read_page(
    page: &[u8],
    vertices: &mut [i32],
    edges: &mut [u32],
    points: &mut [i32],
) -> Result<PageContents, PageRefused>
    ensures page { result ≡ (read_page page.now vertices.old edges.old points.old).page }
    ensures vertices { vertices.new ≡ (read_page page.now vertices.old edges.old points.old).vertices }
    ensures edges { edges.new ≡ (read_page page.now vertices.old edges.old points.old).edges }
    ensures points { points.new ≡ (read_page page.now vertices.old edges.old points.old).points }
    ensures refused { (number line : ℕ) → (result ≡ refused_page number line) ↔ PageRefuses page.now (length vertices.old) (length edges.old) (length points.old) number line }
    ensures untouched { (number line : ℕ) → result ≡ refused_page number line → (vertices.new ≡ vertices.old) × ((edges.new ≡ edges.old) × (points.new ≡ points.old)) }
    ensures one_text { (head : Head) (count : ℕ) → result ≡ sheet_page head count → OneText page.now head count vertices.new edges.new points.new }
{
    let count = judge_page(page)?;
    read_good(page, count, vertices, edges, points)
}

// Reads a good page with so many points.
fn read_good(
    page: &[u8],
    count: usize,
    vertices: &mut [i32],
    edges: &mut [u32],
    points: &mut [i32],
) -> Result<PageContents, PageRefused>
    requires { GoodPage page.now count }
    ensures page { result ≡ (read_page page.now vertices.old edges.old points.old).page }
    ensures vertices { vertices.new ≡ (read_page page.now vertices.old edges.old points.old).vertices }
    ensures edges { edges.new ≡ (read_page page.now vertices.old edges.old points.old).edges }
    ensures points { points.new ≡ (read_page page.now vertices.old edges.old points.old).points }
{
    let head = read_head(page);
    let v = head.vertices as usize;
    let m = head.edges as usize;
    if vertices.len() < 2 * v || edges.len() < 4 * m || points.len() < 2 * count {
        return Err(PageRefused {
            number: 33,
            line: 0,
        });
    }
    read_tables(page, v, m, count, vertices, edges, points);
    Ok(PageContents {
        head,
        points: count,
    })
}
