// Where things stand in the sparse grid: the cell of a point, the centre of a cell, the place of a region in a list. Every float and every list is taken.
#![tactic(auto)]

pub mod dim2;
pub mod inner;

ghost use Rattle.std.specs.Prelude.{◌≡◌, ◌+◌, ◌≤◌, length};
ghost use Rattle.cells.specs.Lookup.{lookup, searched};

// Where the id stands in the list, found by halves.
pub fn lookup(ids: &[u64], id: u64) -> Option<usize>
    ensures { result ≡ lookup ids.now id }
{
    lookup_in(ids, id, 0, ids.len())
}

// The same among the `count` entries from `first` on. Not the library's `binary_search`: what is answered of a list that does not ascend is promised too.
fn lookup_in(ids: &[u64], id: u64, first: usize, count: usize) -> Option<usize>
    requires { first + count ≤ length ids.now }
    ensures { result ≡ searched ids.now id first count }
{
    if count == 0 {
        return None;
    }
    if count == 1 {
        return entry(ids, id, first);
    }
    let half = count / 2;
    if ids[first + half] <= id {
        return lookup_in(ids, id, first + half, count - half);
    }
    lookup_in(ids, id, first, half)
}

// One entry is the sought one, or there is none.
fn entry(ids: &[u64], id: u64, place: usize) -> Option<usize>
    requires { place + 1 ≤ length ids.now }
    ensures { result ≡ searched ids.now id place 1 }
{
    (ids[place] == id).then_some(place)
}
