// A byte text that contracts see as a list.
use kb_geometry::Items;

/// A text of bytes in no particular character set. Contracts see it as the list of its bytes.
pub type Bytes = Items<u8>;
