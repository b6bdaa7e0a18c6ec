//! The bounds that the program keeps, each with its unit. Where a bound is the default of one of
//! VictoriaMetrics' flags, the flag is named.

/// The greatest time, in milliseconds since the Unix epoch. The least is 0.
pub const MAX_TIME: u64 = (1 << 48) - 1;

/// The most digits of a sample's value.
pub const SAMPLE_DIGITS: u32 = 18;

/// The least power of ten of a sample's value in normal form.
pub const MIN_SAMPLE_EXPONENT: i16 = -350;

/// The greatest power of ten of a sample's value in normal form.
pub const MAX_SAMPLE_EXPONENT: i16 = 350;

/// The most digits of a number in the evaluation of a query.
pub const DEC_DIGITS: u32 = 38;

/// The least power of ten of a number in the evaluation of a query, in normal form.
pub const MIN_DEC_EXPONENT: i16 = -1000;

/// The greatest power of ten of a number in the evaluation of a query, in normal form.
pub const MAX_DEC_EXPONENT: i16 = 1000;

/// The fewest labels of a label set that is imported.
pub const MIN_LABELS: u64 = 1;

/// The most labels of a label set that is imported (`-maxLabelsPerTimeseries`).
pub const MAX_LABELS: u64 = 40;

/// The greatest length of a label's name in an import, in bytes (`-maxLabelNameLen`).
pub const MAX_LABEL_NAME: u64 = 256;

/// The greatest length of a label's value in an import, in bytes (`-maxLabelValueLen`).
pub const MAX_LABEL_VALUE: u64 = 4_096;

/// The greatest length of a line in an import, in bytes.
pub const MAX_IMPORT_LINE: u64 = 4_194_304;

/// A batch of an import ends at the first line end at which it holds this many rows or more.
pub const BATCH_ROWS: u64 = 10_000;

/// The most samples of a block.
pub const MAX_BLOCK_SAMPLES: u64 = 8_192;

/// The most rows that wait to be written to a file.
pub const MAX_PENDING_ROWS: u64 = 4_194_304;

/// The most batches that wait to be written to a file.
pub const MAX_PENDING_BATCHES: u64 = 4_096;

/// The most rows of a store, in all its parts and in the batches that wait.
pub const MAX_STORE_ROWS: u64 = 1 << 40;

/// The most file parts that a store has at once.
pub const MAX_FILE_PARTS: u64 = 1_024;

/// The fewest parts that a merge takes.
pub const MIN_MERGE_INPUTS: u64 = 2;

/// The most parts that a merge takes.
pub const MAX_MERGE_INPUTS: u64 = 15;

/// The most views of a store that are open at once.
pub const MAX_VIEWS: u64 = 64;

/// How many slots a pool has, each with room for one block.
pub const POOL_SLOTS: u64 = 17;

/// The most points of a series in the answer to a query (`-search.maxPointsPerTimeseries`).
pub const MAX_POINTS: u64 = 30_000;

/// The greatest length of a query's text, in bytes (`-search.maxQueryLen`).
pub const MAX_QUERY_TEXT: u64 = 16_384;

/// How deep parentheses and calls may be nested in a query.
pub const MAX_QUERY_NESTING: u64 = 100;

/// The most nodes of a query once each name of a `WITH` is replaced by what it stands for.
pub const MAX_EXPANSION_NODES: u64 = 10_000;

/// The greatest height of such a query's tree, in nodes.
pub const MAX_EXPANSION_HEIGHT: u64 = 500;

/// The greatest length of a request's head, in bytes.
pub const MAX_REQUEST_HEAD: u64 = 16_384;

/// The most headers of a request.
pub const MAX_HEADERS: u64 = 64;

/// The greatest length of a request's body that is a form, in bytes.
pub const MAX_FORM_BODY: u64 = 1_048_576;

/// The greatest generation of a store's list of parts. Each change of the list takes the next one.
pub const MAX_GENERATION: u64 = 1 << 63;

/// The most files that a store has let go and not removed yet.
pub const MAX_DROPPED_FILES: u64 = 65_536;

/// The most bytes that are taken from one input or one connection.
pub const MAX_INPUT: u64 = 1 << 62;

/// How far back a query looks for a series' last sample where no lookback is given, in
/// milliseconds: five minutes, as with Prometheus' `--query.lookback-delta`.
pub const DEFAULT_LOOKBACK: u64 = 300_000;
