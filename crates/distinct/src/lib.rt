// Whether numbers are all different: one pass in the usual case, and exact in every case. It knows nothing of what the numbers name.
#![tactic(auto)]

ghost use Rattle.std.specs.Prelude.{◌≡◌};
ghost use Rattle.distinct.specs.Differ.{differ};

// How many residues the quick pass tells apart.
const RESIDUES: usize = 256;

// A pass marks each number's residue. Where no two share one the numbers differ; where two do, each is held against each.
pub fn all_differ(ids: &[u32]) -> bool
    ensures { result ≡ differ ids.now }
{
    let mut seen = [false; RESIDUES];
    for id in ids {
        let residue = *id as usize % RESIDUES;
        if seen[residue] {
            return each_differs(ids);
        }
        seen[residue] = true;
    }
    true
}

// Each number against those behind it.
fn each_differs(ids: &[u32]) -> bool
    ensures { result ≡ differ ids.now }
{
    for (i, id) in ids.iter().enumerate() {
        if ids[i + 1..].contains(id) {
            return false;
        }
    }
    true
}
