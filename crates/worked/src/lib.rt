//! A worked example: a small book that compile takes, so that the laws of compiled files speak of something.
#![tactic(auto)]

ghost use Rattle.worked.specs.Mirror.{MirrorFile};

use compiler::compile::compile_book;
use compiler::fault::CompileFault;
use compiler::tables::Tables;
use policy::path::Path;

/// S → a X a, S → b X b, X → c, with a, b, c = 0, 1, 2 and S, X = 3, 4.
const MIRROR: [u16; 17] = [3, 2, 3, 3, 3, 3, 0, 4, 0, 3, 3, 1, 4, 1, 4, 1, 2];

/// Compiles that book under the path policy, in tables that are just long enough. It is never refused; its file passes a c a, which
/// the book derives, and not a c b, which it does not derive.
pub fn mirror_file() -> Result<[u8; 67], CompileFault>
    ensures { MirrorFile result }
{
    let mut tables = Tables::<9, 9, 10, 4>::new();
    let mut file = [0; 67];
    compile_book(&MIRROR, &mut Path::new(), tables.lend(), &mut file)?;
    Ok(file)
}
