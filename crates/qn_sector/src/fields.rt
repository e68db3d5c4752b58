//! A sector while it is put together, field by field.
ghost use Rattle.std.specs.Prelude.{◌≡◌, ◌+◌, ◌≤◌, ◌++◌};
ghost use Rattle.qn_model.specs.Sectors.{zeros};
ghost use Rattle.arrayvec.specs.ArrayVec.{array_vec_len};

use arrayvec::ArrayVec;
use qn_base::add;

/// A sector that is being put together, from its first byte on.
pub type Sector = ArrayVec<u8, 512>;

/// Fills the rest of the sector with zeros.
pub fn add_zeros(sector: &mut Sector, count: usize)
    requires { array_vec_len sector.old + count ≤ 512 }
    ensures { sector.new.items ≡ sector.old.items ++ zeros count }
{
    let blank = [0; 512];
    add(sector, blank.split_at(count).0);
}
