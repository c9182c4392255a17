//! The configuration: its lines, its sections, and the indexes that it describes.
#![tactic(auto)]

mod draft;
mod fault;
mod keys;
mod laws;
mod lines;
mod reading;
mod setting;
mod shape;
mod size;
mod text;
mod zones;

pub use fault::{ConfFault, ConfKind};
pub use index_conf::{Conf, IndexConf, MAX_INDEXES};
pub use laws::a_text_is_one_configuration;
pub use reading::read_conf;
pub use size::MAX_CONF_BYTES;
