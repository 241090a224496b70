//! Times to live.
use crate::name_calls::octets::composed;
use crate::name_calls::read::write_unread;
use dns_name::{Parser, Ttl};
use rows::{Answer, Row, RowError};
use std::alloc::Global;
use std::time::Duration;

pub fn answer(alloc: Global, row: &mut Row<'_>, out: &mut Answer) -> Result<(), RowError> {
    match row.method() {
        "parse" => parse(row.octets(alloc)?.as_slice(), out),
        "constants" => write_constants(out),
        "default" => write_time(Some(Ttl::default()), out),
        "checked_sum" => checked_sum(alloc, row, out),
        "from_mins" | "from_hours" | "from_days" => of_units(row, out),
        "from_duration_lossy" => {
            let duration = Duration::from_secs(row.value()?);
            write_time(Some(Ttl::from_duration_lossy(duration)), out)
        }
        _ => answer_of(alloc, Ttl::from_secs(row.value()?), row, out),
    }
}

/// Writes SECOND, MINUTE, HOUR, DAY, ZERO, MAX, CAP.
fn write_constants(out: &mut Answer) -> Result<(), RowError> {
    for ttl in [
        Ttl::SECOND,
        Ttl::MINUTE,
        Ttl::HOUR,
        Ttl::DAY,
        Ttl::ZERO,
        Ttl::MAX,
        Ttl::CAP,
    ] {
        out.shown(&ttl.as_secs())?;
    }
    Ok(())
}

/// Writes the seconds of a time, or that there is none.
fn write_time(ttl: Option<Ttl>, out: &mut Answer) -> Result<(), RowError> {
    match ttl {
        Some(ttl) => out.shown(&ttl.as_secs()),
        None => out.shown(&"none"),
    }
}

fn parse(octets: &[u8], out: &mut Answer) -> Result<(), RowError> {
    let mut parser = Parser::from_ref(octets);
    match Ttl::parse(&mut parser) {
        Ok(ttl) => out.shown(&ttl.as_secs())?,
        Err(error) => write_unread(error, out)?,
    }
    out.shown(&parser.pos())
}

fn checked_sum(alloc: Global, row: &mut Row<'_>, out: &mut Answer) -> Result<(), RowError> {
    let mut ttls = Vec::new(alloc);
    for _ in 0..100 {
        if !row.has_more() {
            break;
        }
        ttls.push(Ttl::from_secs(row.value()?))?;
    }
    write_time(Ttl::checked_sum(ttls.as_slice()), out)
}

/// Answers a TTL of minutes, hours or days, up to the largest number of them.
fn of_units(row: &mut Row<'_>, out: &mut Answer) -> Result<(), RowError> {
    let count: u32 = row.value()?;
    let ttl = match row.method() {
        "from_mins" if count <= Ttl::MAX_MINUTES => Ttl::from_mins(count),
        "from_hours" if count <= Ttl::MAX_HOURS => Ttl::from_hours(count),
        "from_days" => match u16::try_from(count) {
            Ok(count) if count <= Ttl::MAX_DAYS => Ttl::from_days(count),
            _ => return Err(RowError::BadWord),
        },
        _ => return Err(RowError::BadWord),
    };
    write_time(Some(ttl), out)
}

fn answer_of(alloc: Global, ttl: Ttl, row: &mut Row<'_>, out: &mut Answer) -> Result<(), RowError> {
    match row.method() {
        "as_minutes" => out.shown(&ttl.as_minutes()),
        "as_hours" => out.shown(&ttl.as_hours()),
        "as_days" => out.shown(&ttl.as_days()),
        "into_duration" => out.shown(&ttl.into_duration().as_secs()),
        "into" => out.shown(&Duration::from(ttl).as_secs()),
        "is_zero" => out.shown(&ttl.is_zero()),
        "cap" => write_time(Some(ttl.cap()), out),
        "compose" => composed(alloc, &ttl, out),
        method => answer_sums(method, ttl, row.value()?, out),
    }
}

/// Answers sums and products with a number of seconds, or of TTLs.
fn answer_sums(method: &str, ttl: Ttl, other: u32, out: &mut Answer) -> Result<(), RowError> {
    let time = Ttl::from_secs(other);
    let made = match method {
        "checked_add" => ttl.checked_add(time),
        "checked_sub" => ttl.checked_sub(time),
        "checked_mul" => ttl.checked_mul(other),
        "checked_div" => ttl.checked_div(other),
        "saturating_add" => Some(ttl.saturating_add(time)),
        "saturating_sub" => Some(ttl.saturating_sub(time)),
        "saturating_mul" => Some(ttl.saturating_mul(other)),
        _ => return Err(RowError::UnknownCall),
    };
    write_time(made, out)
}
