//! What series are, said without gathering them.
ghost use Rattle.vm_series.specs.Series.{AreSeries, HaveWhatIsSeen, series_of};

use vm_labels::Row;

/// Does nothing. Its contract is a law: the label sets of rows' series rise, so none stands twice,
/// and each series has at least one sample and all of its samples in order.
pub fn each_series_is_in_order(interval: u64, rows: &[Row])
    ensures { AreSeries (series_of interval rows.now) }
{}

/// Does nothing. Its contract is a law: of each label set, rows' series have exactly the samples
/// that are seen of it among the rows.
pub fn series_have_what_is_seen(interval: u64, rows: &[Row])
    ensures { HaveWhatIsSeen interval rows.now (series_of interval rows.now) }
{}
