// What a desk's telegram asks of the set. Only here is a whole message taken apart.
ghost use Rattle.std.specs.Prelude.{◌≡◌, cond, eqb, Err};
ghost use Rattle.telegram.specs.Telegram.{read_telegram};
ghost use Rattle.set_state.specs.Entry.{number_of, numbered};
ghost use Rattle.set_rules.specs.Refusals.{asked_by};
ghost use Rattle.telegram_requests.specs.Asking.{code_of, asking, unread_as, telegram_asked};

use channel::Event;
use set_state::{LinkRequest, Refusal};
use telegram::{Message, Number, ReadError, Ring, Telegram};

// What an entry asks.
#[derive(Clone, Copy)]
pub enum Asked {
    OfLink(LinkRequest),
    OfLine(LineRequest),
}

// What an entry asks of the channel with a code.
#[derive(Clone, Copy)]
pub enum LineRequest {
    // What is to happen on it. The number is what a telegram gives as its desk's own.
    OnChannel {
        code: u32,
        number: Number,
        event: Event,
    },
    // The answer to a ring, as the telegram has it.
    AnswersRing(Ring),
}

// The code of the channel that is asked about.
pub fn code_of(request: LineRequest) -> u32
    ensures { result ≡ code_of request }
{
    match request {
        LineRequest::OnChannel {
            code,
            number,
            event,
        } => code,
        LineRequest::AnswersRing(answer) => answer.channel,
    }
}

// A capture request's order: 1 captures, 0 releases.
fn ordered(d: u8, order: u32) -> Event
    ensures { result ≡ cond (eqb order 1) (Event.Capture d) (Event.Release d) }
{
    if order == 1 {
        Event::Capture(d)
    } else {
        Event::Release(d)
    }
}

// What desk d asks by a message, if a desk sends it.
fn asked_by(d: u8, message: Message) -> Result<Asked, Refusal>
    ensures { numbered result ≡ asking (asked_by d message) }
{
    match message {
        Message::TimeNotice(m) => Ok(Asked::OfLink(LinkRequest::TellsTime)),
        Message::RingAnswer(m) => Ok(Asked::OfLine(LineRequest::AnswersRing(m))),
        Message::OperationAnswer(m) => Ok(Asked::OfLink(LinkRequest::TellsState {
            state: m.state,
        })),
        Message::CaptureRequest(m) => {
            let number = m.number;
            let event = ordered(d, m.order);
            Ok(Asked::OfLine(LineRequest::OnChannel {
                code: m.channel,
                number,
                event,
            }))
        }
        _ => Err(Refusal::Identifier),
    }
}

// A wrong code is 8 and an identifier that no desk sends 9, whatever the reader found in the body.
fn unread(code: u32, error: ReadError) -> Refusal
    ensures { number_of result ≡ unread_as code (Err error) }
{
    match error {
        ReadError::Header => Refusal::Header,
        ReadError::Identifier {
            code: seen,
            identifier,
        } => {
            if seen != code {
                Refusal::Header
            } else {
                Refusal::Identifier
            }
        }
        ReadError::Body {
            code: seen,
            identifier,
        } => {
            if seen != code {
                return Refusal::Header;
            }
            match identifier {
                550411 => Refusal::Body,
                550419 => Refusal::Body,
                550421 => Refusal::Body,
                550600 => Refusal::Body,
                _ => Refusal::Identifier,
            }
        }
    }
}

// What the telegram of desk d asks, whose code this is.
pub fn read_request(d: u8, telegram: &[u8], code: u32) -> Result<Asked, Refusal>
    ensures { numbered result ≡ telegram_asked d code (read_telegram telegram.now) }
{
    let reading = telegram_reader::read(telegram);
    let Ok(read) = reading else {
        return Err(unread_request(code, reading));
    };
    if read.code != code {
        return Err(Refusal::Header);
    }
    asked_by(d, read.message)
}

// Why a telegram that does not read asks nothing.
fn unread_request(code: u32, reading: Result<Telegram, ReadError>) -> Refusal
    ensures { (e : ReadError) → reading ≡ Err e → number_of result ≡ unread_as code reading }
{
    match reading {
        Ok(_) => Refusal::Header,
        Err(error) => unread(code, error),
    }
}
