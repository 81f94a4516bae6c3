ghost use Rattle.std.specs.Prelude.{◌≡◌, ◌<◌, ◌+◌, ◌*◌, ◌++◌, None, Some, true, length, map, replicate, IsTrue, OnOk, vec_len};
ghost use Rattle.affine_core.specs.Affine.{form_at};
ghost use Rattle.sanlp.specs.Access.{cell_at};
ghost use Rattle.sanlp.specs.Cells.{natural};
ghost use Rattle.cell_rows.specs.RowPlaces.{place_after, place_from, with_place, within_limit};
ghost use Rattle.cell_rows.specs.ShortAccesses.{access_short};
ghost use Rattle.cell_rows.specs.SmallValues.{are_small_values};

use crate::narrow_access::NarrowAccess;
use crate::places::{ROW_LIMIT, next_wide_place};
use affine_core::Subscripts;
use plain_data::Items;
use sanlp::ArrayDecl;
use std::alloc::{AllocError, Global};
use std::collections::BTreeMap;

/// What is kept of the cells of an array within its extents, in row-major order up to the last that was written.
#[derive(Drop)]
pub(crate) struct Rows<T> {
    extents: Items<i64>,
    values: Items<Option<T>>,
}

// The place of a cell in row-major order, if its subscripts are within the extents and the place within the limit. So
// many rows of these extents stand before.
fn place_of(before: usize, extents: &[i64], at: &[i128]) -> Option<usize>
    ensures { result ≡ place_from before extents.now at.now }
{
    match (extents.split_first(), at.split_first()) {
        (None, None) => Some(before),
        (Some((extent, extents)), Some((subscript, at))) => {
            place_of(next_wide_place(before, *extent, *subscript)?, extents, at)
        }
        _ => None,
    }
}

// Adds so many places that were not written.
fn add_places<T: Copy>(values: &mut Items<Option<T>>, count: usize) -> Result<(), AllocError>
    ensures { OnOk result (values.new ≡ values.old ++ replicate count None) }
{
    for _ in 0..count {
        values.push(None)?;
    }
    Ok(())
}

// Writes the value at a place, which may lie past the last.
fn put_at<T: Copy>(values: &mut Items<Option<T>>, place: usize, value: T) -> Result<(), AllocError>
    ensures { OnOk result (values.new ≡ with_place values.old place value) }
{
    if place < values.len() {
        values.set(place, Some(value));
        return Ok(());
    }
    let count = place - values.len();
    add_places(values, count)?;
    values.push(Some(value))
}

impl<T: Copy> Rows<T> {
    ghost use Rattle.cell_rows.specs.RowPlaces.{value_at};
    ghost use Rattle.cell_rows.specs.Rows.{row_value};

    // The value of a cell, if it was written here.
    fn get(&self, at: &[i128]) -> Option<T>
        ensures { result ≡ row_value self.now at.now }
    {
        self.value_at(place_of(0, self.extents.as_slice(), at)?)
    }

    // The value at a place, if there is one.
    fn value_at(&self, place: usize) -> Option<T>
        ensures { result ≡ value_at self.now.values place }
    {
        if place < self.values.len() {
            self.values.as_slice()[place]
        } else {
            None
        }
    }

    // Writes the value at a place.
    fn put(&mut self, place: usize, value: T) -> Result<(), AllocError>
        ensures { OnOk result
            (self.new ≡ record self.old { values = with_place self.old.values place value }) }
    {
        put_at(&mut self.values, place, value)
    }
}

/// What is kept of the cells of a nest's arrays, such as their values: of each cell that was written, what was written
/// last. A cell within the extents of its array is kept in rows as long as they have room, and any other in a map.
#[derive(Drop)]
pub struct Cells<T> {
    rows: Vec<Rows<T>>,
    room: usize,
    map: BTreeMap<(usize, Subscripts), T>,
}

impl<T: Copy> Cells<T> {
    ghost use Rattle.std.specs.Prelude.{IfOk, false};
    ghost use Rattle.std.specs.BTreeMap.{get};
    ghost use Rattle.std.specs.Map.{update};
    ghost use Rattle.sanlp.specs.Cells.{Cell};
    ghost use Rattle.sanlp.specs.Memory.{is_cell};
    ghost use Rattle.cell_rows.specs.CellMap.{cell_cmp, no_values, places_in, values_in};
    ghost use Rattle.cell_rows.specs.Rows.{kept_at, kept_value, with_kept};

    /// No cell, for these arrays.
    pub fn new(alloc: Global, arrays: &[ArrayDecl]) -> Result<Cells<T>, AllocError>
        ensures { IfOk result (λ cells. values_in cells ≡ no_values) }
    {
        let mut cells = Cells::empty(alloc);
        for array in arrays {
            cells.add_rows(alloc, array.extents.as_slice())?;
        }
        Ok(cells)
    }

    #[tactic(auto, unfolding(crate::specs::CellMap::values_in))]
    fn empty(alloc: Global) -> Cells<T>
        ensures { values_in result ≡ no_values }
    {
        Cells {
            rows: Vec::new(alloc),
            room: ROW_LIMIT,
            map: BTreeMap::new(alloc),
        }
    }

    // Rows for the next array.
    fn add_rows(&mut self, alloc: Global, extents: &[i64]) -> Result<(), AllocError>
        ensures { OnOk result (values_in self.new ≡ values_in self.old) }
    {
        let rows = Rows {
            extents: Items::from_slice(alloc, extents)?,
            values: Items::new(alloc),
        };
        self.rows.push(rows)?;
        Ok(())
    }

    // What is kept of a cell in rows.
    fn kept(&self, array: usize, at: &Subscripts) -> Option<T>
        ensures { result ≡ kept_value self.now.rows.items (array, at.now) }
    {
        self.rows.get(array)?.get(at.as_slice())
    }

    /// What is kept of the cell of an array number and subscripts, or `None` where it was never written.
    #[tactic(auto, unfolding(crate::specs::CellMap::values_in))]
    pub fn get(&self, array: usize, at: &Subscripts) -> Option<T>
        ensures { result ≡ values_in self.now (array, at.now) }
    {
        match self.kept(array, at) {
            Some(value) => Some(value),
            None => self.map.get(&(array, at.copy())).copied(),
        }
    }

    /// The place of an access's cell in the rows of its array, if it has one there. It may be known that the loop values
    /// are small.
    #[tactic(auto, unfolding(crate::specs::CellMap::places_in))]
    pub fn place(&self, access: &NarrowAccess, at: &[i64], small: bool) -> Option<usize>
        requires fits { IsTrue (access_short (length at.now) access.now) }
        requires small { small ≡ true → IsTrue (are_small_values at.now) }
        ensures { result ≡ places_in self.now (cell_at at.now access.now) }
    {
        let rows = self.rows.get(access.array())?;
        access.place(rows.extents.as_slice(), at, small)
    }

    // What is kept at a place in the rows of an array.
    fn kept_at(&self, array: usize, place: usize) -> Option<T>
        ensures { result ≡ kept_at self.now.rows.items array place }
    {
        self.rows.get(array)?.value_at(place)
    }

    // What is kept of an access's cell in the map.
    fn mapped(&self, alloc: Global, access: &NarrowAccess, at: &[i64]) -> Option<T>
        requires { IsTrue (access_short (length at.now) access.now) }
        ensures { result ≡ get cell_cmp self.now.map (cell_at at.now access.now) }
    {
        if self.map.is_empty() {
            return None;
        }
        let cell = access.cell(alloc, at);
        self.map.get(&cell).copied()
    }

    /// What is kept of an access's cell, which has this place in rows, or `None` where it was never written.
    pub fn read_at(
        &self,
        alloc: Global,
        access: &NarrowAccess,
        at: &[i64],
        place: usize,
    ) -> Option<T>
        requires fits { IsTrue (access_short (length at.now) access.now) }
        requires placed { places_in self.now (cell_at at.now access.now) ≡ Some place }
        ensures { result ≡ values_in self.now (cell_at at.now access.now) }
    {
        match self.kept_at(access.array(), place) {
            Some(value) => Some(value),
            None => self.mapped(alloc, access, at),
        }
    }

    /// What is kept of an access's cell, or `None` where it was never written.
    pub fn read(&self, alloc: Global, access: &NarrowAccess, at: &[i64], small: bool) -> Option<T>
        requires fits { IsTrue (access_short (length at.now) access.now) }
        requires small { small ≡ true → IsTrue (are_small_values at.now) }
        ensures { result ≡ values_in self.now (cell_at at.now access.now) }
    {
        match self.place(access, at, small) {
            Some(place) => self.read_at(alloc, access, at, place),
            None => self.mapped(alloc, access, at),
        }
    }

    // Whether the rows of an array have a place or have room for it.
    fn has_room(&self, array: usize, place: usize) -> bool
        ensures there { IsTrue result → array < vec_len self.now.rows }
        ensures full { result ≡ false → kept_at self.now.rows.items array place ≡ None }
    {
        match self.rows.get(array) {
            Some(rows) => place < rows.values.len().saturating_add(self.room),
            None => false,
        }
    }

    // Writes the cell that has this place in the rows of its array.
    fn put_in_rows(&mut self, array: usize, place: usize, value: T) -> Result<(), AllocError>
        requires { array < vec_len self.old.rows }
        ensures rows { OnOk result
            (self.new.rows.items ≡ with_kept self.old.rows.items array place value) }
        ensures map { self.new.map ≡ self.old.map }
    {
        let rows = &mut self.rows[array];
        let kept = rows.values.len();
        rows.put(place, value)?;
        let grown = rows.values.len().saturating_sub(kept);
        self.room = self.room.saturating_sub(grown);
        Ok(())
    }

    /// Writes an access's cell, which has this place in rows. The places of cells stay.
    pub fn write_at(
        &mut self,
        alloc: Global,
        access: &NarrowAccess,
        at: &[i64],
        place: usize,
        value: T,
    ) -> Result<(), AllocError>
        requires fits { IsTrue (access_short (length at.now) access.now) }
        requires placed { places_in self.old (cell_at at.now access.now) ≡ Some place }
        ensures values { let cell = cell_at at.now access.now in
            OnOk result (values_in self.new
            ≡ update is_cell (values_in self.old) cell (Some value)) }
        ensures places { OnOk result (places_in self.new ≡ places_in self.old) }
    {
        if self.has_room(access.array(), place) {
            self.put_in_rows(access.array(), place, value)
        } else {
            self.map.insert(access.cell(alloc, at), value)?;
            Ok(())
        }
    }

    /// Writes an access's cell. The places of cells stay.
    pub fn write(
        &mut self,
        alloc: Global,
        access: &NarrowAccess,
        at: &[i64],
        small: bool,
        value: T,
    ) -> Result<(), AllocError>
        requires fits { IsTrue (access_short (length at.now) access.now) }
        requires small { small ≡ true → IsTrue (are_small_values at.now) }
        ensures values { let cell = cell_at at.now access.now in
            OnOk result (values_in self.new
            ≡ update is_cell (values_in self.old) cell (Some value)) }
        ensures places { OnOk result (places_in self.new ≡ places_in self.old) }
    {
        match self.place(access, at, small) {
            Some(place) => self.write_at(alloc, access, at, place, value),
            None => {
                self.map.insert(access.cell(alloc, at), value)?;
                Ok(())
            }
        }
    }
}
