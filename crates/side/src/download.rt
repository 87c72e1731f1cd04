// Downloads: which inserts a side is sent, one text for both.
ghost use Rattle.std.specs.Prelude.{◌≡◌, ℕ, ◌+◌, ◌*◌, ◌<◌, ◌≤◌, length, take, drop, slice_get, IfSome, IfNone};
ghost use Rattle.std.specs.Option.{option_map};
ghost use Rattle.message.specs.Writing.{written};
ghost use Rattle.subscription.specs.Codes.{codes_in};
ghost use Rattle.side.specs.Download.{by_tens, download, insert_at, later, numbered};

use super::side::Side;
use message::insert::codes_insert;
use message::kinds::Service;
use message::message::Message;
use numbers::imsi::Imsi;
use subscription::code_list::CodeList;
use subscription::profile::Profile;

// How many inserts send codes by tens.
fn count(codes: &CodeList) -> u8
    ensures count { result ≡ length (by_tens (codes_in codes.now)) }
    ensures few { result ≤ 2 }
{
    codes.as_slice().len().div_ceil(10) as u8
}

// The ten codes at an index, fewer at the end; none past the last.
fn ten_at(codes: &[u8], index: usize) -> Option<&[u8]>
    ensures some { IfSome result (λ ten. (index * 10 < length codes.now) × (ten.now ≡ take 10 (drop (index * 10) codes.now))) }
    ensures none { IfNone result (length codes.now ≤ index * 10) }
{
    codes.chunks(10).nth(index)
}

// The insert at an index among those with codes of one kind, of which the first has the number `first`.
fn codes_at(first: u8, service: Service, codes: &CodeList, index: u8) -> Option<Message>
    requires { first + index < 256 }
    ensures { option_map written result ≡ slice_get (numbered first service (by_tens (codes_in codes.now))) index }
{
    let ten = ten_at(codes.as_slice(), index as usize)?;
    Some(codes_insert(first + index, service, ten))
}

// The insert at an index after the first: bearer codes, then teleservice codes.
fn later_insert(bearers: &CodeList, teleservices: &CodeList, index: u8) -> Option<Message>
    requires { 2 + index < 256 }
    ensures { option_map written result ≡ slice_get (later (codes_in bearers.now) (codes_in teleservices.now)) index }
{
    let before = count(bearers);
    if index < before {
        codes_at(2, Service::Bearer, bearers, index)
    } else {
        codes_at(
            2 + before,
            Service::Teleservice,
            teleservices,
            index - before,
        )
    }
}

// Insert `id` of a download, counted from 1; none past the last. The IMSI stands in front in a dialogue that the register itself starts.
pub fn insert<D: Side>(imsi: Option<Imsi>, profile: &Profile, id: u8) -> Option<Message>
    ensures { option_map written result ≡ insert_at (download D.Side.meaning imsi profile.now) id }
{
    match id {
        0 => None,
        1 => Some(D::first(imsi, profile)),
        _ => later_insert(&D::bearers(profile), &profile.teleservices, id - 2),
    }
}
