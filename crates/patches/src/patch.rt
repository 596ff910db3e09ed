// A tensor-product Bezier patch: its control points row after row, its degrees m (from row to row) and n (within a row), and the allowance that the points are told to have. Any
// numbers may stand here: survey tests them.
#[derive_where(Clone, Copy)]
pub struct Patch<'a, K> {
    pub points: &'a [K],
    pub m: usize,
    pub n: usize,
    pub allowance: u16,
}
