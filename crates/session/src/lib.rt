// Sessions: a degree, a deviation, and whether y is drawn. Each call takes the session by value, and hands back the next one with its
// answer. The structs are those of the C interface: so a refusal is a number in them, and 0 is a call that is served.
#![tactic(auto)]

ghost use Rattle.std.specs.Prelude.{◌≡◌, ◌≤◌};
ghost use Rattle.refused.specs.Refusals.{number};
ghost use Rattle.session.specs.Calls.{fresh, opened, draw_of, after_draw, drawn_refused, drawn_served, draw_left};
ghost use Rattle.session.specs.Calls.{respond_of, after_respond, responded_refused, responded_served, respond_left};

use attempt::Tables;
use base_sample::Cdt;
use challenge_product::Factors;
use exponential::Exponential;
use refused::Refusal;
use response::Answer;
use sampler::Counts;

// y is drawn where drawn is 1, and at any other number it is not.
#[repr(C)]
#[derive(Clone, Copy)]
pub struct Session {
    pub degree: usize,
    pub deviation: u64,
    pub drawn: u64,
}

// What opening hands back.
#[repr(C)]
#[derive(Clone, Copy)]
pub struct Opened {
    pub refusal: u32,
    pub session: Session,
}

// The answer of a draw: a refusal, or 0; attempts made, samples accepted, entries listed.
#[repr(C)]
#[derive(Clone, Copy)]
pub struct DrawAnswer {
    pub refusal: u32,
    pub attempts: usize,
    pub accepted: usize,
    pub entries: usize,
}

// What a draw hands back.
#[repr(C)]
#[derive(Clone, Copy)]
pub struct Drawn {
    pub answer: DrawAnswer,
    pub session: Session,
}

// The answer of a respond: a refusal, or 0; the bit, and entries listed.
#[repr(C)]
#[derive(Clone, Copy)]
pub struct RespondAnswer {
    pub refusal: u32,
    pub bit: bool,
    pub entries: usize,
}

// What a respond hands back.
#[repr(C)]
#[derive(Clone, Copy)]
pub struct Responded {
    pub answer: RespondAnswer,
    pub session: Session,
}

impl Session {
    // Opens a session of degree n, for noise of a deviation.
    pub fn open(n: usize, deviation: u64) -> Opened
        ensures { result ≡ opened n deviation }
    {
        match refusals::open_refusal(n, deviation) {
            Err(refusal) => Opened {
                refusal: refusal.number(),
                session: Session::fresh(0, 0),
            },
            Ok(()) => Opened {
                refusal: 0,
                session: Session::fresh(n, deviation),
            },
        }
    }

    // A session with nothing drawn.
    fn fresh(degree: usize, deviation: u64) -> Session
        ensures { result ≡ fresh degree deviation }
    {
        Session {
            degree,
            deviation,
            drawn: 0,
        }
    }

    // Draws 2n samples into y within a limit of attempts. After the checks, the reads of words and tables are listed from the start of the
    // list on.
    pub fn draw(
        self,
        limit: usize,
        cdt: &[u64],
        polynomial: &[u64],
        words: &[u64],
        y: &mut [i32],
        list: &mut [u32],
    ) -> Drawn
        ensures { after_draw result y.new list.new
            ≡ draw_left self (draw_of limit cdt.now polynomial.now words.now
            y.old list.old) }
    {
        let n = self.degree;
        let tests = refusals::draw_refusal(
            n,
            self.deviation,
            limit,
            cdt,
            polynomial,
            words.len(),
            y.len(),
            list.len(),
        );
        match tests {
            Err(refusal) => self.drawn_refused(refusal),
            Ok(()) => {
                let cdt = Cdt { words: cdt };
                let exponential = Exponential {
                    table: polynomial,
                    reciprocal: deviations::reciprocal_at(self.deviation),
                };
                let tables = Tables { cdt, exponential };
                let counts = sampler::draw(n, limit, tables, words, y, list);
                self.drawn_served(counts)
            },
        }
    }

    // Responds to a challenge, at BLISS-I's deviation alone: z holds y and the product of the key with the challenge, added or subtracted,
    // where the bit is 1, else it is all zero. y becomes all zero. After the checks, the reads of key, words and table are listed from the
    // start of the list on.
    pub fn respond(
        self,
        challenge: &[u32],
        polynomial: &[u64],
        words: &[u64],
        key: &[i32],
        y: &mut [i32],
        z: &mut [i32],
        list: &mut [u32],
    ) -> Responded
        ensures { after_respond result y.new z.new list.new
            ≡ respond_left self (respond_of challenge.now polynomial.now words.now
            key.now y.old z.old list.old) }
    {
        let n = self.degree;
        let tests = refusals::respond_refusal(
            n,
            self.deviation,
            self.drawn,
            challenge,
            polynomial,
            words.len(),
            key,
            y,
            z.len(),
            list.len(),
        );
        match tests {
            Err(refusal) => self.responded_refused(refusal),
            Ok(()) => {
                let factors = Factors {
                    key,
                    challenge,
                    degree: n,
                };
                let exponential = Exponential {
                    table: polynomial,
                    reciprocal: exponential::RECIPROCAL_215,
                };
                let answer = response::respond(factors, exponential, words, y, z, list);
                self.responded_served(answer)
            },
        }
    }

    // What a refused draw hands back: no counts, and the same session.
    fn drawn_refused(self, refusal: Refusal) -> Drawn
        ensures { result ≡ drawn_refused (number refusal) self }
    {
        Drawn {
            answer: DrawAnswer {
                refusal: refusal.number(),
                attempts: 0,
                accepted: 0,
                entries: 0,
            },
            session: self,
        }
    }

    // What a served draw hands back: its counts. Full sets drawn, and spent clears it.
    fn drawn_served(self, counts: Counts) -> Drawn
        requires { self.degree ≤ 1024 }
        ensures { result ≡ drawn_served self counts }
    {
        let n = self.degree;
        Drawn {
            answer: DrawAnswer {
                refusal: 0,
                attempts: counts.attempts,
                accepted: counts.accepted,
                entries: counts.entries,
            },
            session: Session {
                degree: n,
                deviation: self.deviation,
                drawn: (counts.accepted == 2 * n) as u64,
            },
        }
    }

    // What a refused respond hands back: no bit, no count, and the same session.
    fn responded_refused(self, refusal: Refusal) -> Responded
        ensures { result ≡ responded_refused (number refusal) self }
    {
        Responded {
            answer: RespondAnswer {
                refusal: refusal.number(),
                bit: false,
                entries: 0,
            },
            session: self,
        }
    }

    // What a served respond hands back: its bit and its count. Nothing is drawn any more.
    fn responded_served(self, answer: Answer) -> Responded
        ensures { result ≡ responded_served self answer }
    {
        Responded {
            answer: RespondAnswer {
                refusal: 0,
                bit: answer.bit,
                entries: answer.entries,
            },
            session: Session::fresh(self.degree, self.deviation),
        }
    }
}
