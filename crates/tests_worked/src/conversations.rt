//! Conversations as text: groups of them, and the lines of each.

use std::alloc::{AllocError, Global};
use std::test::Fail;

/// What a step of a conversation is, by the word that its first line begins with.
#[derive(Clone, Copy, Debug, PartialEq, Eq)]
pub enum Kind {
    /// `-- FROM => TO`: from here on the settings are the built-in ones with one text in the place of another.
    Over,
    /// `@ INSTANCE BINDING`: from here on these are looked at.
    At,
    /// `> METHOD TARGET`: a request that the conversation goes on with.
    Goes,
    /// `? METHOD TARGET`: a request to a broker of its own, which has what went before.
    Asked,
    /// `= STATE`: the state of what is looked at.
    Is,
}

impl Kind {
    /// The kind of a step that begins with this word.
    fn of(word: &str) -> Option<Kind> {
        match word {
            "--" => Some(Kind::Over),
            "@" => Some(Kind::At),
            ">" => Some(Kind::Goes),
            "?" => Some(Kind::Asked),
            "=" => Some(Kind::Is),
            _ => None,
        }
    }

    pub fn is_request(self) -> bool {
        matches!(self, Kind::Goes | Kind::Asked)
    }
}

/// A step, with the lines that belong to it.
#[derive(Drop)]
pub struct Step {
    pub kind: Kind,
    /// Its first line without the word that it begins with.
    pub text: String,
    /// `: NAME: VALUE`: field lines in place of those of the request's door, each with its end.
    pub fields: String,
    /// `~ IDENTITY`: the field line of its identity with its end, which the reply repeats, or nothing.
    pub identity: String,
    /// `| BODY`
    pub body: String,
    /// `< STATUS BODY`: the reply's status line, and from its first brace on its body.
    pub reply: String,
    /// `* ORDER`: orders behind it, each with a line break before it, or none.
    pub orders: Option<String>,
}

impl Step {
    fn new(alloc: Global, kind: Kind, text: &str) -> Result<Step, AllocError> {
        Ok(Step {
            kind,
            text: String::from_str(alloc, text)?,
            fields: String::new(alloc),
            identity: String::new(alloc),
            body: String::new(alloc),
            reply: String::new(alloc),
            orders: None,
        })
    }

    /// Adds an order. A line without one says that there is none.
    fn add_order(&mut self, alloc: Global, order: &str) -> Result<(), AllocError> {
        let mut orders = self.orders.take().unwrap_or(String::new(alloc));
        if !order.is_empty() {
            orders.push('\n')?;
            orders.push_str(order)?;
        }
        self.orders = Some(orders);
        Ok(())
    }

    /// Adds a line that begins with this word. Says whether a step may have such a line.
    fn add(&mut self, alloc: Global, word: &str, text: &str) -> Result<bool, AllocError> {
        match word {
            ":" => {
                self.fields.push_str(text)?;
                self.fields.push_str("\r\n")?;
            }
            "~" => {
                self.identity = format!(in alloc; "X-Broker-API-Request-Identity: {text}\r\n")?;
            }
            "|" => self.body.push_str(text)?,
            "<" => self.reply.push_str(text)?,
            "*" => self.add_order(alloc, text)?,
            _ => return Ok(false),
        }
        Ok(true)
    }
}

/// A conversation with a broker, which begins without orders.
#[derive(Drop)]
pub struct Conversation {
    pub name: String,
    pub steps: Vec<Step>,
}

/// Conversations about one thing.
#[derive(Drop)]
pub struct Group {
    pub name: String,
    pub conversations: Vec<Conversation>,
}

impl Conversation {
    fn new(alloc: Global, name: &str) -> Result<Conversation, AllocError> {
        Ok(Conversation {
            name: String::from_str(alloc, name)?,
            steps: Vec::new(alloc),
        })
    }

    /// Reads a line that begins with this word. Says whether it may stand there.
    fn read(&mut self, alloc: Global, word: &str, text: &str) -> Result<bool, AllocError> {
        if let Some(kind) = Kind::of(word) {
            self.steps.push(Step::new(alloc, kind, text)?)?;
            return Ok(true);
        }
        match self.steps.last_mut() {
            Some(step) => step.add(alloc, word, text),
            None => Ok(false),
        }
    }
}

impl Group {
    fn new(alloc: Global, name: &str) -> Result<Group, AllocError> {
        Ok(Group {
            name: String::from_str(alloc, name)?,
            conversations: Vec::new(alloc),
        })
    }

    fn read(&mut self, alloc: Global, word: &str, text: &str) -> Result<bool, AllocError> {
        if word == "==" {
            self.conversations.push(Conversation::new(alloc, text)?)?;
            return Ok(true);
        }
        match self.conversations.last_mut() {
            Some(conversation) => conversation.read(alloc, word, text),
            None => Ok(false),
        }
    }
}

/// Reads a line. Says whether it may stand there.
pub fn read_line(alloc: Global, groups: &mut Vec<Group>, line: &str) -> Result<bool, AllocError> {
    let (word, text) = line.split_once(' ').unwrap_or((line, ""));
    if line.is_empty() || word == "#" {
        return Ok(true);
    }
    if word == "===" {
        groups.push(Group::new(alloc, text)?)?;
        return Ok(true);
    }
    match groups.last_mut() {
        Some(group) => group.read(alloc, word, text),
        None => Ok(false),
    }
}

/// The groups of this text. Fails where a line is none of those that may stand there.
pub fn read(alloc: Global, text: &str) -> Result<Vec<Group>, Fail> {
    let mut groups = Vec::new(alloc);
    for (number, line) in text.lines().enumerate() {
        if !read_line(alloc, &mut groups, line)? {
            let told = format!(in alloc; "line {}: {line}", number.saturating_add(1))?;
            return Err(Fail::from(told));
        }
    }
    Ok(groups)
}
