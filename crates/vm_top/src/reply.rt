//! The body of a reply. (VictoriaMetrics, "Prometheus querying API")

ghost use Rattle.std.specs.Prelude.{◌≡◌, ◌*◌, ◌^◌, ◌<◌, ◌++◌, map, flat_map, pos, IfOk, OnOk};
ghost use Rattle.std.specs.List.{join_with_byte};
ghost use Rattle.vm_top.specs.Reply.{reply, series, next_series, point};

use std::alloc::{AllocError, Global};
use vm_base::Sample;
use vm_decimal::Dec;
use vm_machine::Valued;

/// The body of the reply to an instant query at a time in ms, with a line feed behind it.
pub fn reply(alloc: Global, time: u64, values: &[Valued]) -> Result<Vec<u8>, AllocError>
    requires { time < 2 ^ 48 }
    ensures { IfOk result (λ body. body.items ≡ reply time values.now) }
{
    let mut body = Vec::new(alloc);
    body.extend_from_slice(
        b"{\"status\":\"success\",\"data\":{\"resultType\":\"vector\",\"result\":[",
    )?;
    write_all_series(&mut body, time, values)?;
    body.extend_from_slice(b"]}}\n")?;
    Ok(body)
}

#[tactic(auto, using(crate::proofs::ReplyLaws::series_written))]
fn write_all_series(body: &mut Vec<u8>, time: u64, values: &[Valued]) -> Result<(), AllocError>
    requires { time < 2 ^ 48 }
    ensures { OnOk result (body.new.items
        ≡ body.old.items ++ join_with_byte 44 (map (series time) values.now)) }
{
    match values.split_first() {
        Some((first, rest)) => {
            write_series(body, time, first)?;
            write_more_series(body, time, rest)?;
            Ok(())
        }
        None => Ok(()),
    }
}

/// Series behind others.
fn write_more_series(body: &mut Vec<u8>, time: u64, values: &[Valued]) -> Result<(), AllocError>
    requires { time < 2 ^ 48 }
    ensures { OnOk result (body.new.items
        ≡ body.old.items ++ flat_map (next_series time) values.now) }
{
    for valued in values {
        write_next(body, time, valued)?;
    }
    Ok(())
}

fn write_next(body: &mut Vec<u8>, time: u64, valued: &Valued) -> Result<(), AllocError>
    requires { time < 2 ^ 48 }
    ensures { OnOk result (body.new.items ≡ body.old.items ++ next_series time valued.now) }
{
    body.extend_from_slice(b",")?;
    write_series(body, time, valued)?;
    Ok(())
}

fn write_series(body: &mut Vec<u8>, time: u64, valued: &Valued) -> Result<(), AllocError>
    requires { time < 2 ^ 48 }
    ensures { OnOk result (body.new.items ≡ body.old.items ++ series time valued.now) }
{
    body.extend_from_slice(b"{\"metric\":")?;
    valued.labels.print_json(body)?;
    body.extend_from_slice(b",\"value\":")?;
    write_point(body, time, valued.value)?;
    body.extend_from_slice(b"}")?;
    Ok(())
}

fn write_point(body: &mut Vec<u8>, time: u64, value: Sample) -> Result<(), AllocError>
    requires { time < 2 ^ 48 }
    ensures { OnOk result (body.new.items ≡ body.old.items ++ point time value) }
{
    body.extend_from_slice(b"[")?;
    Dec::of_sample(seconds(time)).print(body)?;
    body.extend_from_slice(b",\"")?;
    Dec::of_sample(value).print(body)?;
    body.extend_from_slice(b"\"]")?;
    Ok(())
}

/// A time in seconds.
fn seconds(time: u64) -> Sample
    requires { time < 2 ^ 48 }
    ensures { result ≡ pos (time * 10 ^ 997) }
{
    Sample::of(time as i64, -3).unwrap()
}
