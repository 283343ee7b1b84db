//! The requests that words spell.
ghost use Rattle.std.specs.Prelude.{◌≡◌, ◌≢◌, IfOk, IfSome, None, Some};
ghost use Rattle.std.specs.Prelude.{option_and_then, option_map};
ghost use Rattle.block_tag.specs.declared.tag.Fork.TheVariants.{Main};
ghost use Rattle.clap.specs.Words.{found_of, kind_of, rows_of, subcommand_rows_of};
ghost use Rattle.segment_store.specs.Paths.{fork_of};
ghost use Rattle.command_line.specs.Numbers.{HasOptionsInRange};
ghost use Rattle.command_line.specs.RelationPath.{relation_number};
ghost use Rattle.command_line.specs.Request.{HasSampleSize, asked, options_of};
ghost use Rattle.command_line.specs.Spelled.{list_in, log_in, main_path_in, recover_in};
ghost use Rattle.command_line.specs.Spelled.{relation_path_in, request_in, request_named};
ghost use Rattle.command_line.specs.Spelled.{request_of_subcommand, rewrite_in, sample_in};
ghost use Rattle.command_line.specs.Spelled.{stats_in};

use crate::grammar::parse;
use crate::numbers::{
    BLOCKS, LANES, Options, SEED, SEGMENT_BLOCKS, number_in, options_in, text_in,
};
use crate::relation_path::relation_number;
use crate::request::{
    ListRequest, Listing, RecoverRequest, Request, RewriteRequest, SampleRequest,
};
use block_tag::Fork;
use clap::error::ErrorKind;
use clap::{ArgMatches, Error};
use segment_store::{fork_of_path, is_file_of};
use std::alloc::{AllocError, Global};

/// The path among the matches, if it names a file of a relation, with the relation's number.
fn relation_path_in<'a>(matches: &ArgMatches<'a>) -> Option<(&'a str, u32)>
    ensures path { option_map (λ p. p.0.now) result
        ≡ relation_path_in (rows_of (found_of matches.now)) }
    ensures number { IfSome result (λ p. relation_number p.0.now ≡ Some p.1) }
{
    let path = text_in(matches, "path")?;
    let number = relation_number(path)?;
    Some((path, number))
}

/// The path among the matches, if it names a relation's main fork, with the relation's number.
fn main_path_in<'a>(matches: &ArgMatches<'a>) -> Option<(&'a str, u32)>
    ensures path { option_map (λ p. p.0.now) result
        ≡ main_path_in (rows_of (found_of matches.now)) }
    ensures number { IfSome result (λ p. relation_number p.0.now ≡ Some p.1) }
    ensures main { IfSome result (λ p. fork_of p.0.now ≡ Main) }
{
    let (path, number) = relation_path_in(matches)?;
    match fork_of_path(path) {
        Fork::Main => Some((path, number)),
        Fork::Fsm | Fork::Vm | Fork::Init => None,
    }
}

/// The log among the matches, unless it is a file of the relation at the path.
fn log_in<'a>(path: &str, matches: &ArgMatches<'a>) -> Option<&'a str>
    ensures { option_map (λ p. p.now) result
        ≡ log_in path.now (rows_of (found_of matches.now)) }
{
    let log = text_in(matches, "log")?;
    if is_file_of(path, log) {
        None
    } else {
        Some(log)
    }
}

/// Whether the flag `--stats` is among the matches.
fn stats_in(matches: &ArgMatches) -> bool
    ensures { result ≡ stats_in (rows_of (found_of matches.now)) }
{
    match text_in(matches, "stats") {
        Some(text) => text == "true",
        None => false,
    }
}

/// `scan` or `dump` among the matches. The counts are asked for only of one backend that is alone.
fn list_in<'a>(matches: &ArgMatches<'a>, options: Options, listing: Listing) -> Option<Request<'a>>
    requires { HasOptionsInRange options }
    ensures asked { option_map asked result
        ≡ list_in listing (rows_of (found_of matches.now)) options }
    ensures range { IfSome result (λ r. HasOptionsInRange (options_of (asked r))) }
    ensures size { IfSome result (λ r. HasSampleSize (asked r)) }
{
    let stats = stats_in(matches);
    if stats && !options.is_alone() {
        return None;
    }
    let (path, number) = relation_path_in(matches)?;
    Some(Request::List(ListRequest {
        path,
        number,
        fork: fork_of_path(path),
        options,
        listing,
        stats,
    }))
}

/// `rewrite` among the matches.
fn rewrite_in<'a>(matches: &ArgMatches<'a>, options: Options) -> Option<Request<'a>>
    requires { HasOptionsInRange options }
    ensures asked { option_map asked result ≡ rewrite_in (rows_of (found_of matches.now)) options }
    ensures range { IfSome result (λ r. HasOptionsInRange (options_of (asked r))) }
    ensures size { IfSome result (λ r. HasSampleSize (asked r)) }
{
    let (path, number) = main_path_in(matches)?;
    let log = log_in(path, matches)?;
    Some(Request::Rewrite(RewriteRequest {
        path,
        number,
        log,
        options,
    }))
}

/// `recover` among the matches. It takes two of the options.
fn recover_in<'a>(matches: &ArgMatches<'a>) -> Option<Request<'a>>
    ensures asked { option_map asked result ≡ recover_in (rows_of (found_of matches.now)) }
    ensures range { IfSome result (λ r. HasOptionsInRange (options_of (asked r))) }
    ensures size { IfSome result (λ r. HasSampleSize (asked r)) }
{
    let (path, number) = main_path_in(matches)?;
    let log = log_in(path, matches)?;
    let lanes = number_in(matches, LANES)?;
    let seg_blocks = number_in(matches, SEGMENT_BLOCKS)?;
    Some(Request::Recover(RecoverRequest {
        path,
        number,
        log,
        lanes,
        seg_blocks,
    }))
}

/// `sample` among the matches.
fn sample_in<'a>(matches: &ArgMatches<'a>, options: Options) -> Option<Request<'a>>
    requires { HasOptionsInRange options }
    ensures asked { option_map asked result ≡ sample_in (rows_of (found_of matches.now)) options }
    ensures range { IfSome result (λ r. HasOptionsInRange (options_of (asked r))) }
    ensures size { IfSome result (λ r. HasSampleSize (asked r)) }
{
    let seed = number_in(matches, SEED)?;
    let blocks = number_in(matches, BLOCKS)?;
    Some(Request::Sample(SampleRequest {
        seed,
        blocks,
        options,
    }))
}

/// The request of a subcommand's name, its matches and its options.
fn request_named<'a>(name: &str, matches: &ArgMatches<'a>, options: Options) -> Option<Request<'a>>
    requires { HasOptionsInRange options }
    ensures asked { option_map asked result
        ≡ request_named name.now (rows_of (found_of matches.now)) options }
    ensures range { IfSome result (λ r. HasOptionsInRange (options_of (asked r))) }
    ensures size { IfSome result (λ r. HasSampleSize (asked r)) }
{
    if name == "scan" {
        return list_in(matches, options, Listing::Scan);
    }
    if name == "dump" {
        return list_in(matches, options, Listing::Dump);
    }
    if name == "rewrite" {
        return rewrite_in(matches, options);
    }
    if name == "sample" {
        return sample_in(matches, options);
    }
    None
}

/// The request of the subcommand that clap found.
fn request_of_subcommand<'a>(matches: &ArgMatches<'a>) -> Option<Request<'a>>
    ensures asked { option_map asked result
        ≡ option_and_then request_of_subcommand (subcommand_rows_of matches.now) }
    ensures range { IfSome result (λ r. HasOptionsInRange (options_of (asked r))) }
    ensures size { IfSome result (λ r. HasSampleSize (asked r)) }
{
    let (name, found) = matches.subcommand()?;
    if name == "recover" {
        return recover_in(found);
    }
    let options = options_in(found)?;
    request_named(name, found, options)
}

/// No request, or out of memory.
fn refused<'a>(error: &Error) -> Result<Option<Request<'a>>, AllocError>
    ensures { IfOk result (λ r. (r ≡ None) × (kind_of error.now ≢ ErrorKind.OutOfMemory)) }
{
    if error.kind() == ErrorKind::OutOfMemory {
        return Err(AllocError);
    }
    Ok(None)
}

/// What the words ask for, or none if they spell no command: the words are those after the
/// program's name.
///
/// It fails only if it runs out of memory.
pub fn read_request<'a>(
    alloc: Global,
    words: &'a [String],
) -> Result<Option<Request<'a>>, AllocError>
    ensures request { IfOk result (λ r. option_map asked r ≡ request_in words.now) }
    ensures range { IfOk result (λ r. IfSome r (λ r. HasOptionsInRange (options_of (asked r)))) }
    ensures size { IfOk result (λ r. IfSome r (λ r. HasSampleSize (asked r))) }
{
    match parse(alloc, words) {
        Ok(matches) => Ok(request_of_subcommand(&matches)),
        Err(error) => refused(&error),
    }
}
