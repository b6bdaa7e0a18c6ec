//! How a series is written.

ghost use Rattle.std.specs.Prelude.{◌≡◌, ◌++◌, OnOk, OnErr};
ghost use Rattle.std.specs.Fmt.{decimal};
ghost use Rattle.vm_decimal.specs.NumberText.{number_text};
ghost use Rattle.vm_jsonline.specs.Print.{comma_before, values_text, times_text, series_text};

use itoa::Buffer;
use std::alloc::AllocError;
use vm_base::{Sample, Stamped};
use vm_decimal::Dec;
use vm_labels::Labels;

/// Appends the samples of a series to `out` as one line of JSON, without a line feed: `metric` with
/// the labels in their order, `values`, `timestamps` in milliseconds, and no spaces. Strings are
/// written as `serde_json` writes them, and numbers as `Dec` prints them. `out` stays as it was
/// where memory runs out.
///
/// (VictoriaMetrics documentation, "JSON line format")
pub fn print_series(
    labels: &Labels,
    samples: &[Stamped],
    out: &mut Vec<u8>,
) -> Result<(), AllocError>
    ensures ok { OnOk result (out.new.items ≡ out.old.items ++ series_text labels.now samples.now) }
    ensures err { OnErr result (out.new.items ≡ out.old.items) }
{
    let alloc = *out.allocator();
    let mut text = Vec::new(alloc);
    put_series(&mut text, labels, samples)?;
    out.extend_from_slice(&text)
}

fn put_series(text: &mut Vec<u8>, labels: &Labels, samples: &[Stamped]) -> Result<(), AllocError>
    ensures { OnOk result (text.new.items ≡ text.old.items ++ series_text labels.now samples.now) }
{
    text.extend_from_slice(b"{\"metric\":")?;
    labels.print_json(text)?;
    text.extend_from_slice(b",\"values\":[")?;
    put_values(text, samples)?;
    text.extend_from_slice(b"],\"timestamps\":[")?;
    put_times(text, samples)?;
    text.extend_from_slice(b"]}")?;
    Ok(())
}

fn put_values(text: &mut Vec<u8>, samples: &[Stamped]) -> Result<(), AllocError>
    ensures { OnOk result (text.new.items ≡ text.old.items ++ values_text samples.now) }
{
    for (index, sample) in samples.iter().enumerate() {
        put_comma_before(text, index)?;
        put_value(text, sample.value)?;
    }
    Ok(())
}

fn put_value(text: &mut Vec<u8>, value: Sample) -> Result<(), AllocError>
    ensures { OnOk result (text.new.items ≡ text.old.items ++ number_text value) }
{
    Dec::of_sample(value).print(text)
}

fn put_times(text: &mut Vec<u8>, samples: &[Stamped]) -> Result<(), AllocError>
    ensures { OnOk result (text.new.items ≡ text.old.items ++ times_text samples.now) }
{
    for (index, sample) in samples.iter().enumerate() {
        put_comma_before(text, index)?;
        put_time(text, sample.time)?;
    }
    Ok(())
}

fn put_time(text: &mut Vec<u8>, time: u64) -> Result<(), AllocError>
    ensures { OnOk result (text.new.items ≡ text.old.items ++ decimal time) }
{
    let mut buffer = Buffer::new();
    text.extend_from_slice(buffer.format(time).as_bytes())?;
    Ok(())
}

fn put_comma_before(text: &mut Vec<u8>, index: usize) -> Result<(), AllocError>
    ensures { OnOk result (text.new.items ≡ text.old.items ++ comma_before index) }
{
    if index > 0 {
        text.push(b',')?;
    }
    Ok(())
}
