// Who owns a cluster in the drive's layout. A table's rows are searched in `file_table`.

// Reserved entries, a fixed cluster, the file of a row, or nobody.
#[derive(Clone, Copy)]
pub enum Own {
    Reserved,
    Fixed,
    Dyn(usize),
    Free,
}
