// How a row is looked for: from the front among any rows, by halves among rows in their order.
#[derive(Clone, Copy)]
pub enum Search {
    FromFront,
    ByHalves,
}
