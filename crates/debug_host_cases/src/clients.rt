//! The doors of a call and the clients that come to them, as its lines say.

use crate::texts::{sorted_parts, take_numbers};
use cdp_text::decimal::read_decimal;
use std::alloc::{AllocError, Global};

/// What a client does next.
#[derive(Drop)]
pub(crate) enum Act {
    /// It sends this text.
    Says(String),
    /// It sends a binary message.
    SaysBinary,
    /// It sends a message above the limit.
    SaysTooMuch,
    /// It sends nothing when it is asked once.
    IsQuiet,
    /// It waits until the gate of this number is open; without a number as long as it is served.
    Waits(Option<u64>),
    /// It goes.
    Goes,
}

/// A client, and what it must have been told. Behind its last act it goes.
#[derive(Drop)]
pub(crate) struct Client {
    pub(crate) acts: Vec<Act>,
    /// The gate that the first text opens which it is sent.
    pub(crate) opens: Option<u64>,
    /// The numbers of the calls of its link that fail, from 1.
    pub(crate) failing: Vec<u64>,
    /// A line for each text that it must have been sent, and one for the code that it must have been closed with.
    pub(crate) told: String,
}

/// A door, or the port that is dialled, with the clients that are there one after another.
#[derive(Drop)]
pub(crate) struct Entrance {
    pub(crate) clients: Vec<Client>,
    /// The numbers of the calls of the door that fail, from 1.
    pub(crate) failing: Vec<u64>,
}

/// What this line lets a client do, if it is of such a form.
fn act_of(alloc: Global, key: &str, text: &str) -> Result<Option<Act>, AllocError> {
    match key {
        "says" => Ok(Some(Act::Says(String::from_str(alloc, text)?))),
        "binary" => Ok(Some(Act::SaysBinary)),
        "large" => Ok(Some(Act::SaysTooMuch)),
        "quiet" => Ok(Some(Act::IsQuiet)),
        "goes" => Ok(Some(Act::Goes)),
        "waits" if text.is_empty() => Ok(Some(Act::Waits(None))),
        "waits" => Ok(read_decimal(text).map(|gate| Act::Waits(Some(gate)))),
        _ => Ok(None),
    }
}

impl Client {
    /// A client that does nothing and is told nothing.
    fn new(alloc: Global) -> Client {
        Client {
            acts: Vec::new(alloc),
            opens: None,
            failing: Vec::new(alloc),
            told: String::new(alloc),
        }
    }

    /// Takes a line of what it is told, so many times.
    fn be_told(&mut self, key: &str, times: u64, text: &str) -> Result<(), AllocError> {
        for _ in 0..times {
            self.told.push_str(key)?;
            self.told.push(' ')?;
            self.told.push_str(text)?;
            self.told.push('\n')?;
        }
        Ok(())
    }

    /// Takes a line of what it does, so many times, and answers whether it is one.
    fn be_let(&mut self, alloc: Global, line: (&str, u64, &str)) -> Result<bool, AllocError> {
        let (key, times, text) = line;
        for _ in 0..times {
            match act_of(alloc, key, text)? {
                Some(act) => self.acts.push(act)?,
                None => return Ok(false),
            }
        }
        Ok(true)
    }

    /// Takes a line, and answers whether it is of a form.
    fn take(&mut self, alloc: Global, line: (&str, u64, &str)) -> Result<bool, AllocError> {
        let (key, times, text) = line;
        match key {
            "sent" | "closed" => self.be_told(key, times, text).map(|()| true),
            "opens" => {
                self.opens = read_decimal(text);
                Ok(self.opens.is_some())
            }
            _ => self.be_let(alloc, line),
        }
    }
}

impl Entrance {
    /// An entrance at which nobody arrives.
    pub(crate) fn new(alloc: Global) -> Entrance {
        Entrance {
            clients: Vec::new(alloc),
            failing: Vec::new(alloc),
        }
    }

    /// Takes a client, by the numbers of the calls of its link that fail.
    fn begin_client(&mut self, alloc: Global, text: &str) -> Result<bool, AllocError> {
        let mut client = Client::new(alloc);
        let is_read = take_numbers(&mut client.failing, text)?;
        self.clients.push(client)?;
        Ok(is_read)
    }

    /// Takes a line of a client or of what the last one does, and answers whether it is of a form.
    pub(crate) fn take(
        &mut self,
        alloc: Global,
        line: (&str, u64, &str),
    ) -> Result<bool, AllocError> {
        if line.0 == "client" {
            return self.begin_client(alloc, line.2);
        }
        match self.clients.last_mut() {
            Some(client) => client.take(alloc, line),
            None => Ok(false),
        }
    }

    /// What its clients must have been told, in the lines of `told_of`.
    fn told(&self, alloc: Global) -> Result<String, AllocError> {
        let mut told = String::new(alloc);
        for client in &self.clients {
            told.push_str("client\n")?;
            told.push_str(&client.told)?;
        }
        Ok(told)
    }
}

/// What the clients of these entrances must have been told.
pub(crate) fn told_at(
    alloc: Global,
    dialled: &Entrance,
    doors: &[Entrance],
) -> Result<String, AllocError> {
    let mut parts = Vec::new(alloc);
    parts.push(dialled.told(alloc)?)?;
    for door in doors {
        parts.push(door.told(alloc)?)?;
    }
    sorted_parts(alloc, parts)
}
