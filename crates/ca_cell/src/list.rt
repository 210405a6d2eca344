//! Lists of defects.

use crate::defect::Defect;
use ca_base::List;

/// Defects in order.
pub type DefectList = List<Defect>;
