//! Globals, functions and the file (docs/language.md, "Files").

ghost use Rattle.std.specs.Prelude.{◌≡◌, ◌≤◌, ◌<◌, length, List, OnOk};
ghost use Rattle.cilk_ast.specs.declared.tree.Item.{Item};
ghost use Rattle.cilk_model.specs.GrammarForms.{param, params, more_params, function, more_globals, item, items, file};
ghost use Rattle.cilk_parser.specs.Gives.{Gives, Leads, Appends};
ghost use Rattle.cilk_parser.specs.Parsers.{Parser};
ghost use Rattle.cilk_parser.specs.Parts.{read_global, read_replicated, read_function_named, read_long};
ghost use Rattle.cilk_parser.specs.Read.{read};

use crate::cursor::Cursor;
use crate::stop::Stop;
use cilk_ast::{Item, Kind, Param, Tree};
use word_ops::{List, Pos};

impl<'a> Cursor<'a> {
    /// A parameter.
    fn param(&mut self) -> Result<Param, Stop>
        ensures reads { Gives result self.new (read param self.old) }
        ensures shrinks { length self.new ≤ length self.old }
    {
        self.take_word(b"long")?;
        let kind = self.star();
        let (pos, name) = self.take_name()?;
        Ok(Param { pos, kind, name })
    }

    /// The parameters of a function, up to its `)`.
    fn params(&mut self) -> Result<List<Param>, Stop>
        ensures reads { Gives result self.new (read params self.old) }
        ensures shrinks { length self.new ≤ length self.old }
    {
        let mut all = self.list();
        if self.at_mark(b")") {
            return Ok(all);
        }
        if self.word(b"void").is_some() {
            return Ok(all);
        }
        let first = self.param()?;
        all.add(first)?;
        self.more_params(&mut all)?;
        Ok(all)
    }

    /// Puts the parameters that are left behind those there are.
    fn more_params(&mut self, all: &mut List<Param>) -> Result<(), Stop>
        ensures reads { Appends result all.old all.new self.new (read more_params self.old) }
        ensures shrinks { length self.new ≤ length self.old }
    {
        'more: while self.mark(b",").is_some() {
            let next = self.param()?;
            all.add(next)?;
        }
        Ok(())
    }

    /// Behind the name of a function: puts it behind what there is, unless it is a prototype.
    fn function(
        &mut self,
        pos: Pos,
        result_kind: Kind,
        name_pos: Pos,
        name: List<u8>,
        all: &mut List<Item>,
    ) -> Result<(), Stop>
        ensures reads { Appends result all.old all.new self.new (read (function pos result_kind name_pos name) self.old) }
        ensures shrinks { length self.new ≤ length self.old }
    {
        self.take_mark(b"(")?;
        let params = self.params()?;
        self.take_mark(b")")?;
        if self.mark(b";").is_some() {
            return Ok(());
        }
        let body = self.block()?;
        all.add(Item::Function {
            pos,
            result: result_kind,
            name_pos,
            name,
            params,
            body,
        })?;
        Ok(())
    }

    /// A declarator of a global.
    fn global(&mut self, replicated: bool) -> Result<Item, Stop>
        ensures reads { (f : Item → Parser (List Item)) → Leads result self.new f (read_global replicated f self.old) }
        ensures shrinks { length self.new ≤ length self.old }
    {
        let kind = self.star();
        let (pos, name) = self.take_name()?;
        Ok(Item::Global {
            pos,
            name,
            kind,
            replicated,
        })
    }

    /// Puts the declarators that are left behind what there is, and takes the `;`.
    fn more_globals(&mut self, replicated: bool, all: &mut List<Item>) -> Result<(), Stop>
        ensures reads { Appends result all.old all.new self.new (read (more_globals replicated) self.old) }
        ensures shrinks { length self.new ≤ length self.old }
    {
        'more: while self.mark(b",").is_some() {
            let next = self.global(replicated)?;
            all.add(next)?;
        }
        self.take_mark(b";")?;
        Ok(())
    }

    /// Replicated globals, behind their first word.
    fn replicated_globals(&mut self, all: &mut List<Item>) -> Result<(), Stop>
        ensures reads { Appends result all.old all.new self.new (read_replicated self.old) }
        ensures shrinks { length self.new ≤ length self.old }
    {
        self.take_word(b"long")?;
        let first = self.global(true)?;
        all.add(first)?;
        self.more_globals(true, all)
    }

    /// A function of this result, which its first word said.
    fn named_function(
        &mut self,
        pos: Pos,
        result_kind: Kind,
        all: &mut List<Item>,
    ) -> Result<(), Stop>
        ensures reads { Appends result all.old all.new self.new (read_function_named pos result_kind self.old) }
        ensures shrinks { length self.new ≤ length self.old }
    {
        let (name_pos, name) = self.take_name()?;
        self.function(pos, result_kind, name_pos, name, all)
    }

    /// A function or globals, from their `long` on.
    fn long_item(&mut self, all: &mut List<Item>) -> Result<(), Stop>
        ensures reads { Appends result all.old all.new self.new (read_long self.old) }
        ensures shrinks { length self.new ≤ length self.old }
        ensures strict { OnOk result (length self.new < length self.old) }
    {
        let pos = self.take_word(b"long")?;
        let kind = self.star();
        let (name_pos, name) = self.take_name()?;
        if self.at_mark(b"(") {
            return self.function(pos, kind, name_pos, name, all);
        }
        all.add(Item::Global {
            pos: name_pos,
            name,
            kind,
            replicated: false,
        })?;
        self.more_globals(false, all)
    }

    /// Puts what the next item declares behind what there is.
    fn item(&mut self, all: &mut List<Item>) -> Result<(), Stop>
        ensures reads { Appends result all.old all.new self.new (read item self.old) }
        ensures shrinks { length self.new ≤ length self.old }
        ensures strict { OnOk result (length self.new < length self.old) }
    {
        if self.word(b"replicated").is_some() {
            return self.replicated_globals(all);
        }
        if let Some(pos) = self.word(b"void") {
            return self.named_function(pos, Kind::Void, all);
        }
        if let Some(pos) = self.word(b"int") {
            return self.named_function(pos, Kind::Int, all);
        }
        self.long_item(all)
    }

    /// All items, up to the end of the text.
    fn items(&mut self) -> Result<List<Item>, Stop>
        ensures reads { Gives result self.new (read items self.old) }
        ensures shrinks { length self.new ≤ length self.old }
    {
        let mut all = self.list();
        'items: while !self.at_finish() {
            self.item(&mut all)?;
        }
        Ok(all)
    }

    /// All items, and where the text ends.
    pub fn file(&mut self) -> Result<Tree, Stop>
        ensures reads { Gives result self.new (read file self.old) }
        ensures shrinks { length self.new ≤ length self.old }
    {
        let items = self.items()?;
        let end = self.take_finish()?;
        Ok(Tree { items, end })
    }
}
