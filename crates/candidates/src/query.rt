// A registered query, in arrays.
ghost use Rattle.std.specs.Prelude.{◌≤◌};
ghost use Rattle.paper.specs.Frame.{most_terms};

// The length of its list, and its n terms with their weights. Nothing is allocated, so the arrays have room for the most terms.
#[derive(Clone, Copy)]
pub struct Query {
    pub k: usize,
    pub n: usize,
    pub terms: [u32; 8],
    pub weights: [u32; 8],
    pub ghost in_arrays: { n ≤ most_terms },
}
