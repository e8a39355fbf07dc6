//! The reply to a line.
ghost use Rattle.std.specs.Prelude.{◌≡◌, ◌≤◌, ◌⊎◌};
ghost use Rattle.arrayvec.specs.ArrayString.{array_string_len};
ghost use Rattle.dd_wire.specs.LineReplies.{IsAnswer, IsReply, IsSearched, asked_text};
ghost use Rattle.dd_wire.specs.ParReplies.{TellsPar, rows_of};
ghost use Rattle.dd_wire.specs.Replies.{spent_text};
ghost use Rattle.dd_request.specs.Results.{results};

use crate::finder::Finder;
use crate::line_asked::LineAsked;
use crate::par_reply::{put_par, put_table_par};
use crate::par_request::ParOfDeal;
use crate::play_reply::put_trace;
use crate::reply::{put_answer, put_fault, put_spent, put_table};
use crate::request_reader::read_request;
use dd_lines::{LONGEST_REPLY, ReplyText};
use dd_request::{Asked, PlayRequest, Request, TableRequest, TargetRequest};
use std::alloc::Global;

/// The most bytes of an answer: an id has room before it.
pub const LONGEST_ANSWER: usize = 900;

/// Puts the reply to a line of any length, without a line feed at its end, in place of another text. A line whose answer the finder
/// gives up is told that a budget was spent.
pub fn put_reply<F: Finder>(reply: &mut ReplyText, alloc: Global, line: &[u8], finder: &mut F)
    ensures text { IsReply (F.gave_up finder.old) line.now reply.new.bytes }
    ensures bound { array_string_len reply.new ≤ LONGEST_REPLY }
{
    match read_request(alloc, line) {
        Ok(asked) => put_asked(reply, asked, finder),
        Err(fault) => put_fault(reply, fault),
    }
}

/// The answer to what a line asks, or that it was given up.
pub(crate) fn asked_reply<F: Finder>(asked: LineAsked, finder: &mut F) -> ReplyText
    ensures text { IsAnswer asked result.bytes ⊎
        (IsSearched asked × F.gave_up finder.old × (result.bytes ≡ spent_text)) }
    ensures bound { array_string_len result ≤ LONGEST_ANSWER }
{
    let mut reply = ReplyText::new();
    put_asked(&mut reply, asked, finder);
    reply
}

/// Puts the answer to what a line asks, or that it was given up.
fn put_asked<F: Finder>(reply: &mut ReplyText, asked: LineAsked, finder: &mut F)
    ensures text { IsAnswer asked reply.new.bytes ⊎
        (IsSearched asked × F.gave_up finder.old × (reply.new.bytes ≡ spent_text)) }
    ensures bound { array_string_len reply.new ≤ LONGEST_ANSWER }
{
    match asked {
        LineAsked::Cards(asked) => put_cards(reply, asked, finder),
        LineAsked::Par(asked) => put_par(reply, &asked),
        LineAsked::ParOfDeal(asked) => put_deal_par(reply, &asked, finder),
    }
}

/// Puts the answer to a question of cards, or that it was given up.
fn put_cards<F: Finder>(reply: &mut ReplyText, asked: Asked, finder: &mut F)
    ensures text { (reply.new.bytes ≡ asked_text asked) ⊎ (F.gave_up finder.old × (reply.new.bytes ≡ spent_text)) }
    ensures bound { array_string_len reply.new ≤ LONGEST_ANSWER }
{
    match asked {
        Asked::Solve(request) => put_solved(reply, request, finder),
        Asked::Table(request) => put_results(reply, &request, finder),
        Asked::Target(request) => put_target(reply, request, finder),
        Asked::Play(request) => put_play(reply, request, finder),
    }
}

/// Puts the answer to a request, or that it was given up.
fn put_solved<F: Finder>(reply: &mut ReplyText, request: Request, finder: &mut F)
    ensures text { (reply.new.bytes ≡ asked_text (Asked.Solve request)) ⊎
        (F.gave_up finder.old × (reply.new.bytes ≡ spent_text)) }
    ensures bound { array_string_len reply.new ≤ LONGEST_ANSWER }
{
    match finder.solve(request) {
        Some(solved) => put_answer(reply, solved.answer()),
        None => put_spent(reply),
    }
}

/// Puts the results of a table, or that one of them was given up.
fn put_results<F: Finder>(reply: &mut ReplyText, request: &TableRequest, finder: &mut F)
    ensures text { (reply.new.bytes ≡ asked_text (Asked.Table request.now)) ⊎
        (F.gave_up finder.old × (reply.new.bytes ≡ spent_text)) }
    ensures bound { array_string_len reply.new ≤ LONGEST_ANSWER }
{
    match finder.solve_table(request) {
        Some(results) => put_table(reply, &results),
        None => put_spent(reply),
    }
}

/// Puts par of the results of a deal, or that one of these was given up.
fn put_deal_par<F: Finder>(reply: &mut ReplyText, asked: &ParOfDeal, finder: &mut F)
    ensures text { TellsPar (rows_of (results asked.now.hands)) asked.now.conditions reply.new.bytes ⊎
        (F.gave_up finder.old × (reply.new.bytes ≡ spent_text)) }
    ensures bound { array_string_len reply.new ≤ LONGEST_ANSWER }
{
    match finder.solve_table(asked.request()) {
        Some(found) => put_table_par(reply, &found, asked.conditions()),
        None => put_spent(reply),
    }
}

/// Puts the tricks after each card of a play, or that one of these numbers was given up.
fn put_play<F: Finder>(reply: &mut ReplyText, request: PlayRequest, finder: &mut F)
    ensures text { (reply.new.bytes ≡ asked_text (Asked.Play request)) ⊎
        (F.gave_up finder.old × (reply.new.bytes ≡ spent_text)) }
    ensures bound { array_string_len reply.new ≤ LONGEST_ANSWER }
{
    match finder.solve_play(request) {
        Some(solved) => put_trace(reply, solved.trace()),
        None => put_spent(reply),
    }
}

/// Puts the cards that reach a target, or that they were given up.
fn put_target<F: Finder>(reply: &mut ReplyText, request: TargetRequest, finder: &mut F)
    ensures text { (reply.new.bytes ≡ asked_text (Asked.Target request)) ⊎
        (F.gave_up finder.old × (reply.new.bytes ≡ spent_text)) }
    ensures bound { array_string_len reply.new ≤ LONGEST_ANSWER }
{
    match finder.solve_target(request) {
        Some(solved) => put_answer(reply, solved.answer()),
        None => put_spent(reply),
    }
}
