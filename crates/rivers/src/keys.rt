// Keys of cells: the heavier of two cells has the larger key.
ghost use Rattle.std.specs.Prelude.{◌≡◌, ◌<◌, length, get_or};
ghost use Rattle.rivers.specs.Cut.{key_in, key_at};

// The key of a cell.
pub fn key_of(cell: usize, area: &[u32]) -> u64
    requires { cell < length area.now }
    ensures { result ≡ key_in area.now cell }
{
    let a = area[cell];
    (a as u64) * 65536 + (cell as u64)
}

// The key of the cell at a position.
pub fn key_at(j: usize, cell: &[u32], area: &[u32]) -> u64
    requires j_in_bounds { j < length cell.now }
    requires j_in_bounds_2 { get_or cell.now j 0 < length area.now }
    ensures { result ≡ key_at cell.now area.now j }
{
    key_of(cell[j] as usize, area)
}
