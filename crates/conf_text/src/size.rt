/// The most bytes of a configuration's text.
pub const MAX_CONF_BYTES: usize = 1_048_576;
